//! The page of a script of hostile names.
use holzikra_finding::Shown as Part;
use holzikra_names::NoSource;
use holzikra_page::{Refusal, Shown, append_end, append_refused, append_script, append_start};
use std::alloc::{AllocError, Global};
use std::test::Fail;
use stencil_data::{Extent, FuncKind, FunctionStencil, LazyRecord, MergedStencil, Text};

const NAME: &str = "<img src=x onerror=\"alert('a&b')\">.js";

/// A script without code, with one function that is not compiled.
fn script(alloc: Global) -> Result<MergedStencil, AllocError> {
    let extent = Extent { start: 0, end: 0 };
    let texts = vec![in alloc; Text::of(alloc, &[60, 47, 115, 62])?]?;
    let records = vec![in alloc;
        LazyRecord {
            extent,
            kind: FuncKind::Declared,
            name: Some(0),
            inner: Vec::new(alloc),
            closed: Vec::new(alloc),
        },
    ]?;
    Ok(MergedStencil {
        texts,
        top: FunctionStencil {
            extent,
            kind: FuncKind::Declared,
            name: None,
            params: 0,
            scopes: Vec::new(alloc),
            code: Vec::new(alloc),
            notes: Vec::new(alloc),
            inner: Vec::new(alloc),
        },
        records,
        entries: Vec::new(alloc),
    })
}

/// How often a piece of HTML stands in a page.
fn count(page: &[u8], piece: &[u8]) -> usize {
    page.windows(piece.len().max(1))
        .filter(|part| *part == piece)
        .count()
}

/// How often pieces stand in the page of hostile names.
const OF_HOSTILE_NAMES: [(&[u8], usize); 4] = [
    (b"</script>", 1),
    (b"<img", 0),
    (
        b"&lt;img src=x onerror=&quot;alert(&#39;a&amp;b&#39;)&quot;&gt;",
        2,
    ),
    (b"&lt;/script&gt;", 3),
];

#[test]
fn no_tag_of_a_text_is_left(rt: HostRuntime) -> Result<(), Fail> {
    let alloc = rt.alloc();
    let merged = script(alloc)?;
    let mut page = Vec::new(alloc);
    append_start(&mut page)?;
    let shown = Shown {
        name: NAME,
        text: b"x = '</script>'\n",
        merged: &merged,
        source: &NoSource,
        functions: &[],
        listing: b"script 0 top\n  String \"</script>\"\n",
        scopes: b"</pre>",
    };
    append_script(alloc, &mut page, 0, &shown)?;
    let refusal = Refusal {
        name: NAME,
        text: b"'</script>",
        words: b"<b>",
        clauses: "",
        line: Some(1),
    };
    append_refused(alloc, &mut page, 1, refusal)?;
    append_end(&mut page)?;
    for (piece, times) in OF_HOSTILE_NAMES {
        assert!(rt; count(&page, piece) == times);
    }
    Ok(())
}

/// The same of the page of a script with a hidden function.
const OF_A_HIDDEN_FUNCTION: [(&[u8], usize); 5] = [
    (b"href=\"#f3n0\"", 2),
    (b"href=\"#f3n1\"", 0),
    (b"<pre id=\"f3n70\">script 70 function 0..0 -\n</pre>", 1),
    (b"file a.js", 0),
    (b"Counts", 0),
];

/// How elements begin and end.
const ELEMENTS: [(&[u8], &[u8]); 2] = [(b"<ul", b"</ul>"), (b"<li>", b"</li>")];

#[test]
fn what_is_hidden_is_left_out(rt: HostRuntime) -> Result<(), Fail> {
    let alloc = rt.alloc();
    let merged = script(alloc)?;
    let mut page = Vec::new(alloc);
    let shown = Shown {
        name: "a.js",
        text: b"",
        merged: &merged,
        source: &NoSource,
        functions: &[Part::Whole, Part::Hidden],
        listing: b"file a.js\nscript 70 function 0..0 -\n",
        scopes: b"",
    };
    append_script(alloc, &mut page, 3, &shown)?;
    for (piece, times) in OF_A_HIDDEN_FUNCTION {
        assert!(rt; count(&page, piece) == times);
    }
    for (start, end) in ELEMENTS {
        assert!(rt; count(&page, start) == count(&page, end));
    }
    Ok(())
}
