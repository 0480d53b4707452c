//! What is said of each code.

ghost use Rattle.std.specs.Prelude.{◌<◌};

use crate::code::{Code, Form, Rule};

/// What is said of a code.
#[derive(Debug, Clone, Copy)]
pub struct Entry {
    /// The code, as it is shown.
    pub code: &'static str,
    /// What it is about, in a few words.
    pub title: &'static str,
    /// The clauses of ECMA-262, 12th edition, with a comma between two; none for a limit of this program.
    pub clauses: &'static str,
    /// The rule in a sentence; for a form outside the profile, what to write instead.
    pub rule: &'static str,
    /// A script that breaks it.
    pub breaks: &'static str,
    /// One that does not.
    pub keeps: &'static str,
}

/// All codes, those of early errors first.
pub fn all_entries() -> &'static [Entry] {
    TABLE.as_slice()
}

/// What is said of this code.
pub fn entry_of(code: Code) -> &'static Entry {
    &TABLE[index_of(code)]
}

/// Where the entry of a code stands in the table.
fn index_of(code: Code) -> usize
    ensures { result < 36 }
{
    match code {
        Code::Early(rule) => rule_index(rule),
        Code::Unexpected => 14,
        Code::TooDeep => 15,
        Code::BadUtf8 => 16,
        Code::TooLong => 17,
        Code::Outside(form) => 18 + form_index(form),
    }
}

/// How many entries of rules stand in front of that of this one.
fn rule_index(rule: Rule) -> usize
    ensures { result < 14 }
{
    match rule {
        Rule::LexicalTwice => 0,
        Rule::LexicalAndVar => 1,
        Rule::LoopHead => 2,
        Rule::CatchParameter => 3,
        Rule::Parameter => 4,
        Rule::ParameterTwice => 5,
        Rule::ConstWithoutValue => 6,
        Rule::Target => 7,
        Rule::StrictName => 8,
        Rule::Delete => 9,
        Rule::Jump => 10,
        Rule::Proto => 11,
        Rule::TooMany => 12,
        Rule::UseStrict => 13,
    }
}

/// How many entries of forms stand in front of that of this one.
fn form_index(form: Form) -> usize
    ensures { result < 18 }
{
    match form {
        Form::Module => 0,
        Form::RegularExpression => 1,
        Form::Destructuring => 2,
        Form::Fraction => 3,
        Form::Class => 4,
        Form::ForOf => 5,
        Form::Finally => 6,
        Form::Spread => 7,
        Form::Generator => 8,
        Form::Async => 9,
        Form::BigInt => 10,
        Form::LargeNumber => 11,
        Form::TaggedTemplate => 12,
        Form::OptionalChaining => 13,
        Form::LogicalAssignment => 14,
        Form::NewTarget => 15,
        Form::Sloppy => 16,
        Form::TopReturn => 17,
    }
}

static TABLE: [Entry; 36] = [
    Entry {
        code: "E1",
        title: "a name declared twice",
        clauses: "14.2.1, 14.12.1, 15.2.1, 16.1.1",
        rule: "A block, a function's body or a script declares each name of `let` and `const` once.",
        breaks: "let a = 1;\nlet a = 2;",
        keeps: "let a = 1;\na = 2;",
    },
    Entry {
        code: "E2",
        title: "a name declared by `var` and by `let` or `const`",
        clauses: "14.2.1, 14.12.1, 15.2.1, 16.1.1",
        rule: "A name that `let` or `const` declares is not also declared by `var`, or as a function, in the same block, body or script.",
        breaks: "{ { var a } let a }",
        keeps: "{ { let a } let a }",
    },
    Entry {
        code: "E3",
        title: "a name of a loop's head declared by `var` in its body",
        clauses: "14.7.4.1, 14.7.5.1",
        rule: "The body of a loop does not declare by `var` what its head declares by `let` or `const`.",
        breaks: "for (let i in o) { var i }",
        keeps: "for (let i in o) { let i }",
    },
    Entry {
        code: "E4",
        title: "a catch parameter declared again",
        clauses: "14.15.1, B.3.5",
        rule: "The block of `catch (e)` does not declare `e` by `let` or `const`.",
        breaks: "try { f() } catch (e) { let e }",
        keeps: "try { f() } catch (e) { { let e } }",
    },
    Entry {
        code: "E5",
        title: "a parameter declared again",
        clauses: "15.2.1, 15.3.1",
        rule: "The body of a function does not declare a parameter's name by `let` or `const`.",
        breaks: "function f(a) { let a }",
        keeps: "function f(a) { { let a } }",
    },
    Entry {
        code: "E6",
        title: "a parameter twice",
        clauses: "15.1.1",
        rule: "The parameters of a function have different names.",
        breaks: "function f(a, a) {}",
        keeps: "function f(a, b) {}",
    },
    Entry {
        code: "E7",
        title: "a constant without a value",
        clauses: "14.3.1.1",
        rule: "`const` gives each of its names a value.",
        breaks: "const a = 1, b;",
        keeps: "const a = 1, b = 2;",
    },
    Entry {
        code: "E8",
        title: "what cannot be assigned to",
        clauses: "13.15.1, 13.4.1, 14.7.5.1",
        rule: "At `=`, `++`, `--` and in the head of for-in stands a name, not `eval` or `arguments`, or a property.",
        breaks: "f() = 1;",
        keeps: "f().a = 1;",
    },
    Entry {
        code: "E9",
        title: "a name that strict code does not allow",
        clauses: "13.1.1",
        rule: "Strict code declares nothing that is called `eval` or `arguments`.",
        breaks: "let eval = 1;",
        keeps: "let evaluate = 1;",
    },
    Entry {
        code: "E10",
        title: "`delete` of a name",
        clauses: "13.5.1.1",
        rule: "In strict code `delete` takes a property, and not a name.",
        breaks: "delete a;",
        keeps: "delete a.b;",
    },
    Entry {
        code: "E11",
        title: "a jump without its target",
        clauses: "14.8.1, 14.9.1, 14.13.1",
        rule: "`break` and `continue` have a loop, `switch` or label of theirs around them; no label stands inside an equal one.",
        breaks: "a: { continue a }",
        keeps: "a: while (f()) { continue a }",
    },
    Entry {
        code: "E12",
        title: "`__proto__` twice",
        clauses: "B.3.1",
        rule: "An object literal sets `__proto__: value` once at most.",
        breaks: "({__proto__: a, __proto__: b});",
        keeps: "({__proto__: a});",
    },
    Entry {
        code: "E13",
        title: "too many parameters or arguments",
        clauses: "",
        rule: "A function or a call has 65,535 of them at most: a limit of this program. ECMA-262 has none.",
        breaks: "f(0, 0, 0 /* and so on, 65,536 in all */);",
        keeps: "f.apply(null, list);",
    },
    Entry {
        code: "E14",
        title: "`\"use strict\"` under parameters that are not simple",
        clauses: "15.2.1",
        rule: "A function with default values or a rest parameter has no directive `\"use strict\"` of its own; the code is strict anyway.",
        breaks: "function f(a = 1) { \"use strict\" }",
        keeps: "function f(a = 1) {}",
    },
    Entry {
        code: "U1",
        title: "an unexpected token",
        clauses: "12, 13, 14, 15, 16",
        rule: "No script goes on with this token behind those in front of it.",
        breaks: "let a = ;",
        keeps: "let a = 1;",
    },
    Entry {
        code: "L2",
        title: "too deep",
        clauses: "",
        rule: "A token stands inside 400 nodes of the grammar at most: a limit of this program. ECMA-262 has none.",
        breaks: "((((a)))); // with 400 brackets on each side",
        keeps: "(a);",
    },
    Entry {
        code: "B1",
        title: "not UTF-8",
        clauses: "11.1",
        rule: "A text is code points, here those that its bytes spell in UTF-8.",
        breaks: "// a comment in Latin-1, with the byte E9 for é",
        keeps: "// a comment in UTF-8, with the bytes C3 A9 for é",
    },
    Entry {
        code: "L1",
        title: "too long",
        clauses: "",
        rule: "A file has 16,777,215 bytes at most: a limit of this program.",
        breaks: "// more than 16 MiB",
        keeps: "// less",
    },
    Entry {
        code: "P1",
        title: "module",
        clauses: "16.2",
        rule: "`import` and `export` make a module. Read scripts: those that a bundler writes, or CommonJS.",
        breaks: "import a from \"b\";",
        keeps: "const a = require(\"b\");",
    },
    Entry {
        code: "P2",
        title: "regular expression literal",
        clauses: "12.8.5",
        rule: "Make the expression from a string.",
        breaks: "var r = /a+/g;",
        keeps: "var r = new RegExp(\"a+\", \"g\");",
    },
    Entry {
        code: "P3",
        title: "destructuring",
        clauses: "13.15.5, 14.3.3",
        rule: "Take the values one by one.",
        breaks: "let {a, b} = o;",
        keeps: "let a = o.a, b = o.b;",
    },
    Entry {
        code: "P4",
        title: "fraction or exponent",
        clauses: "12.8.3",
        rule: "Write a quotient or a product of whole numbers.",
        breaks: "x = 1.5;",
        keeps: "x = 3 / 2;",
    },
    Entry {
        code: "P5",
        title: "class",
        clauses: "15.7",
        rule: "Write a function, and its methods on its prototype.",
        breaks: "class A { f() {} }",
        keeps: "function A() {}\nA.prototype.f = function () {};",
    },
    Entry {
        code: "P6",
        title: "for-of",
        clauses: "14.7.5",
        rule: "Call a method of the list, or count.",
        breaks: "for (let x of list) f(x);",
        keeps: "list.forEach(x => f(x));",
    },
    Entry {
        code: "P7",
        title: "`finally`",
        clauses: "14.15",
        rule: "Do it behind the statement, and where the error is caught.",
        breaks: "try { f() } finally { g() }",
        keeps: "try { f() } catch (e) { g(); throw e }\ng();",
    },
    Entry {
        code: "P8",
        title: "spread",
        clauses: "13.2.4, 13.3.8",
        rule: "Hand over the list itself.",
        breaks: "f(...a);",
        keeps: "f.apply(null, a);",
    },
    Entry {
        code: "P9",
        title: "generator",
        clauses: "15.5",
        rule: "Write a function that answers an object with a method `next`.",
        breaks: "function* f() {}",
        keeps: "function f() { return {next: g} }",
    },
    Entry {
        code: "P10",
        title: "async",
        clauses: "15.8",
        rule: "Go on in the function that `then` is handed.",
        breaks: "async function f() { await g() }",
        keeps: "function f() { return g().then(h) }",
    },
    Entry {
        code: "P11",
        title: "BigInt",
        clauses: "12.8.3",
        rule: "Call `BigInt`.",
        breaks: "x = 1n;",
        keeps: "x = BigInt(1);",
    },
    Entry {
        code: "P12",
        title: "a number above 2^53 - 1",
        clauses: "12.8.3",
        rule: "Write a product or a sum of smaller numbers.",
        breaks: "x = 9007199254740993;",
        keeps: "x = 9007199254740991 + 2;",
    },
    Entry {
        code: "P13",
        title: "tagged template",
        clauses: "13.3.11",
        rule: "Call the function with its arguments.",
        breaks: "f`a`;",
        keeps: "f([\"a\"]);",
    },
    Entry {
        code: "P14",
        title: "optional chaining",
        clauses: "13.3.9",
        rule: "Ask first.",
        breaks: "x = a?.b;",
        keeps: "x = a == null ? undefined : a.b;",
    },
    Entry {
        code: "P15",
        title: "logical assignment",
        clauses: "13.15",
        rule: "Ask first.",
        breaks: "a ||= b;",
        keeps: "a = a || b;",
    },
    Entry {
        code: "P16",
        title: "`new.target`",
        clauses: "13.3.12",
        rule: "Ask for `this.constructor`.",
        breaks: "function f() { return new.target }",
        keeps: "function f() { return this.constructor }",
    },
    Entry {
        code: "P17",
        title: "sloppy code",
        clauses: "12.8.3, 13.1.1, 14.11.1, C",
        rule: "Write strict code: no `with`, old octal form, strict word as a name, or function as the body of `if`.",
        breaks: "with (a) f();",
        keeps: "a.f();",
    },
    Entry {
        code: "P18",
        title: "`return` outside functions",
        clauses: "14.10",
        rule: "Put the code into a function that is called at once.",
        breaks: "return 1;",
        keeps: "(() => { return 1 })();",
    },
];
