//! Texts that are interned.

use parser_atoms::{Atoms, EMPTY_DIGEST, digest_with};
use std::alloc::{AllocError, Global};
use std::test::Fail;

/// Two names with the same digest, 0x8B2095419FD380A8.
const ONE: [u16; 13] = [
    0x75, 0x46, 0x42, 0x43, 0x62, 0x64, 0x61, 0x68, 0x6A, 0x42, 0x45, 0x6D, 0x4E00,
];

const TWO: [u16; 13] = [
    0x45, 0x6C, 0x74, 0x6B, 0x71, 0x64, 0x65, 0x72, 0x67, 0x62, 0x6D, 0x45, 0x68E0,
];

/// Texts in the order in which they are interned, each with its atom.
const TEXTS: [(&[u16], u32); 8] = [
    (&[0x61, 0x62], 0),
    (&[], 1),
    (&[0x61, 0x62], 0),
    (&[0xD800], 2),
    (&ONE, 3),
    (&TWO, 4),
    (&ONE, 3),
    (&TWO, 4),
];

/// The atom of a text; none where there are many texts.
fn interned(alloc: Global, atoms: &mut Atoms, text: &[u16]) -> Result<Option<u32>, AllocError> {
    if atoms.len() < 8192 {
        Ok(Some(atoms.intern(alloc, text)?))
    } else {
        Ok(None)
    }
}

#[test]
fn equal_texts_have_one_atom(rt: HostRuntime) -> Result<(), Fail> {
    let mut atoms = Atoms::new(rt.alloc());
    assert!(rt; atoms.is_empty());
    for (text, atom) in TEXTS {
        assert!(rt; interned(rt.alloc(), &mut atoms, text)? == Some(atom));
    }
    let texts = atoms.into_texts();
    assert!(rt; texts.len() == 5);
    assert!(rt; texts[2].units() == [0xD800].as_slice() && texts[4].units() == TWO.as_slice());
    Ok(())
}

/// The digest of a text.
fn digest(units: &[u16]) -> u64 {
    let mut digest = EMPTY_DIGEST;
    for unit in units {
        digest = digest_with(digest, u32::from(*unit));
    }
    digest
}

#[test]
fn two_names_have_one_digest(rt: HostRuntime) {
    assert!(rt; digest(&ONE) == digest(&TWO));
}

/// The number in base 16, with letters for digits.
fn spelled(alloc: Global, number: u32) -> Result<Vec<u16>, AllocError> {
    let mut units = Vec::new(alloc);
    let mut rest = number;
    for _ in 0..4 {
        units.push((0x61 + rest % 16) as u16)?;
        rest = rest / 16;
    }
    Ok(units)
}

#[test]
fn thousands_of_texts_are_found_again(rt: HostRuntime) -> Result<(), Fail> {
    let alloc = rt.alloc();
    let mut atoms = Atoms::new(alloc);
    for number in 0..4000 {
        let text = spelled(alloc, number % 2000)?;
        assert!(rt; interned(alloc, &mut atoms, text.as_slice())? == Some(number % 2000));
    }
    Ok(())
}
