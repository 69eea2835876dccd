//! A section read line by line and written again, and texts that begin with no line.
use cert_text::{TextFault, push_line, read_line};
use std::alloc::{AllocError, Global};
use std::test::Fail;

/// Each form of a line once or more, and the section of "the set is one position, and it isn't".
const LINES: &[u8] = b"pale-certificate 1
triple 7
program
section easier 0
section whole 3
and 2
space 0 1 0
left 0 0
right 0 0 1 4294967295
root 0 0 0 =0
node 1 2 =3 4
root 4 5 6 7
accept
accept 0 1
pair 0 0 0 0
pair 0 1 1 0
ex 4294967295
init 0 2
settle 0 2 0 1 1
settle 1 2 3 4 0
set 0 0
set 0 1 2 3
end
";

/// What is written of the lines that a text consists of; as much of it as there is before the first fault.
fn written(alloc: Global, text: &[u8]) -> Result<Vec<u8>, AllocError> {
    let mut out = Vec::new(alloc);
    let mut left = text;
    for _ in 0..text.len() {
        match read_line(alloc, left) {
            Ok((line, after)) => {
                push_line(alloc, &mut out, &line)?;
                left = after;
            }
            Err(_) => return Ok(out),
        }
    }
    Ok(out)
}

#[test]
fn lines_are_written_as_they_were_read(rt: HostRuntime) -> Result<(), Fail> {
    let out = written(rt.alloc(), LINES)?;
    assert_eq!(rt; out.as_slice(), LINES);
    Ok(())
}

/// Texts that begin with no line.
const FAULTS: [&[u8]; 16] = [
    b"",
    b"end",
    b"\n",
    b"End\n",
    b" end\n",
    b"end \n",
    b"end 0\n",
    b"pale-certificate 2\n",
    b"section half 1\n",
    b"and\n",
    b"and 01\n",
    b"and 4294967296\n",
    b"and  1\n",
    b"pair 0 0 0\n",
    b"node 1 0 = =1\n",
    b"settle 0 2 0 1 2\n",
];

#[test]
fn other_texts_are_faults(rt: HostRuntime) -> Result<(), Fail> {
    for text in FAULTS {
        match read_line(rt.alloc(), text) {
            Ok(_) => assert!(rt; false),
            Err(fault) => assert_eq!(rt; fault, TextFault::Syntax),
        }
    }
    Ok(())
}
