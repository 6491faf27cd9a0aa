use super::*;
use std::alloc::Global;
use std::test::Fail;

// certificates
const TEXTS: [&str; 4] = [
    "witval certificate 1\nobligations 0\n",
    "witval certificate 1\nobligations 1\nobligation 1 chains 0\n",
    "witval certificate 1\nobligations 1\nobligation 1 chains 1\n1 2:1 =\n",
    "witval certificate 1\nobligations 2\nobligation 1 chains 2\n4294967295 = -7 3 2147483647\n12 2:1 10:0 = -2147483647\nobligation 2 chains 1\n0 =\n",
];

// no certificates
const OTHERS: [&str; 30] = [
    "",
    "x",
    "witval certificate 1\n",
    "witval certificate 2\nobligations 0\n",
    "witval certificate 1\nobligations 0",
    "witval certificate 1\nobligations 00\n",
    "witval certificate 1\nobligations +0\n",
    "witval certificate 1\nobligations -0\n",
    "witval certificate 1\nobligations\n",
    "witval certificate 1\nobligations 0 \n",
    "witval certificate 1\nobligations 0\n\n",
    "witval certificate 1\r\nobligations 0\r\n",
    "witval certificate 1\nobligations 1\n",
    "witval certificate 1\nobligations 0\nobligation 1 chains 0\n",
    "witval certificate 1\nobligations 1\nobligation 2 chains 0\n",
    "witval certificate 1\nobligations 1\nobligation 0 chains 0\n",
    "witval certificate 1\nobligations 1\nobligation 1 chains 1\n",
    "witval certificate 1\nobligations 1\nobligation 1 chains 0\n1 2:1 =\n",
    "witval certificate 1\nobligations 1\nobligation 1 chains 1\n1 2:1 =",
    "witval certificate 1\nobligations 1\nobligation 1 chains 1\n1 2:1 = \n",
    "witval certificate 1\nobligations 1\nobligation 1 chains 1\n1 2:1  =\n",
    "witval certificate 1\nobligations 1\nobligation 1 chains 1\n01 2:1 =\n",
    "witval certificate 1\nobligations 1\nobligation 1 chains 1\n4294967296 2:1 =\n",
    "witval certificate 1\nobligations 1\nobligation 1 chains 1\n1 2:99999999999999999999 =\n",
    "witval certificate 1\nobligations 1\nobligation 1 chains 1\n1 2:1 = 0\n",
    "witval certificate 1\nobligations 1\nobligation 1 chains 1\n1 2:1 = -2147483648\n",
    "witval certificate 1\nobligations 1\nobligation 1 chains 1\n1 2:1 = 2 1\n",
    "witval certificate 1\nobligations 1\nobligation 1 chains 1\n1 2:1 = 1 1\n",
    "witval certificate 1\nobligations 1\nobligation 1 chains 1\n1 2:1 = -1 1\n",
    "witval certificate 1\nobligations 99999999999999999999999\n",
];

// whether the bytes are read, and are what is written then
fn is_kept(alloc: Global, text: &str) -> Result<bool, CertFault> {
    let logs = read_certificate(alloc, text.as_bytes())?;
    let written = certify(alloc, &logs)?;
    Ok(written.as_slice() == text.as_bytes())
}

#[test]
fn certificates_are_kept(rt: HostRuntime) -> Result<(), Fail> {
    for text in TEXTS {
        assert!(rt; is_kept(rt.alloc(), text) == Ok(true));
    }
    Ok(())
}

#[test]
fn other_texts_are_refused(rt: HostRuntime) -> Result<(), Fail> {
    for text in OTHERS {
        assert!(rt; is_kept(rt.alloc(), text) == Err(CertFault::Form));
    }
    Ok(())
}
