// Channel files: each gets one line, and the rest of the buffer keeps its bytes.
use channel::fault::FileFault;
use channel::listing::listing;
use std::alloc::{AllocError, Global};
use std::test::Fail;

struct File {
    text: &'static str,
    line: &'static str,
}

const FILES: [File; 34] = [
    File {
        text: "",
        line: "refused 27 file 0\n",
    },
    File {
        text: "x",
        line: "refused 28 file 0\n",
    },
    File {
        text: "\n",
        line: "refused 28 file 0\n",
    },
    File {
        text: "@0",
        line: "refused 28 file 0\n",
    },
    File {
        text: "@\n",
        line: "refused 28 file 0\n",
    },
    File {
        text: "@00\n",
        line: "refused 28 file 0\n",
    },
    File {
        text: "@ 0\n",
        line: "refused 28 file 0\n",
    },
    File {
        text: "@0\n",
        line: "refused 16 rows 0\n",
    },
    File {
        text: "@1\n",
        line: "refused 29 file 0\n",
    },
    File {
        text: "*>0\n@4\n",
        line: "states 1 rules 0\n",
    },
    File {
        text: "*>0\n@4",
        line: "refused 28 file 0\n",
    },
    File {
        text: "*>0\n@4\n\n",
        line: "refused 28 file 0\n",
    },
    File {
        text: "*>0\n@4\r\n",
        line: "refused 28 file 0\n",
    },
    File {
        text: "*>0\n@3\n",
        line: "refused 29 file 0\n",
    },
    File {
        text: "*>0\n@5\n",
        line: "refused 29 file 0\n",
    },
    File {
        text: "*>0\n@99999\n",
        line: "refused 29 file 0\n",
    },
    File {
        text: "*>0\n@100000\n",
        line: "refused 28 file 0\n",
    },
    File {
        text: "*>0\na@4\n",
        line: "refused 28 file 0\n",
    },
    File {
        text: "*>0\na\n@4\n",
        line: "states 1 rules 1\n",
    },
    File {
        text: "*>1\na\n@4\n",
        line: "refused 20 rows 2\n",
    },
    File {
        text: "*>0\n*aa>0\n@10\n",
        line: "refused 18 rows 6\n",
    },
    File {
        text: "*>0\n@0\n",
        line: "refused 16 rows 0\n",
    },
    File {
        text: "->0\n@4\n",
        line: "refused 3 roster 0\n",
    },
    File {
        text: "->0\na+\n@4\n",
        line: "refused 3 roster 0\n",
    },
    File {
        text: "*>0\n\n@4\n",
        line: "refused 6 rule 4\n",
    },
    File {
        text: "*>0\na\n\n@4\n",
        line: "refused 6 rule 6\n",
    },
    File {
        text: "*>0\na+b\n@4\n",
        line: "refused 7 rule 5\n",
    },
    File {
        text: "*>0\na\na b\n@4\n",
        line: "refused 8 rule 8\n",
    },
    File {
        text: "*>0\nA(a U b\n@4\n",
        line: "refused 9 rule 11\n",
    },
    File {
        text: "*>0\na\r\n@4\n",
        line: "refused 7 rule 5\n",
    },
    File {
        text: "*>0\na\na\na\na\na\na\na\na\na\na\na\na\na\na\na\na\n@4\n",
        line: "states 1 rules 16\n",
    },
    File {
        text: "*>0\na\na\na\na\na\na\na\na\na\na\na\na\na\na\na\na\n+\n@4\n",
        line: "refused 5 rule 36\n",
    },
    File {
        text: "*>0\na\na\na\na\na\na\na\na\na\na\na\na\na\na\na\n+\na\n@4\n",
        line: "refused 7 rule 34\n",
    },
    File {
        text: "*n>1\n-c>2\n-o>0,3\n-f>0\nAG(!c|AF o)\nEF f\nAF f\n@22\n",
        line: "states 4 rules 3\n",
    },
];

const FILLER: u8 = 7;

// The file gets this line, and what stands behind it in the buffer is left alone.
fn gets(heap: Global, file: &str, line: &str) -> Result<(), Fail> {
    let mut buffer = [FILLER; 1100];
    let answer = listing(heap, file.as_bytes(), &mut buffer);
    let (written, rest) = buffer.split_at(answer.unwrap_or_else(|refusal| refusal.length));
    if written != line.as_bytes() || rest.iter().any(|b| *b != FILLER) {
        return Err(Fail::new(file));
    }
    Ok(())
}

// A row with all letters and all targets.
const ROW: &str =
    "*abcdefghijklmnopqrstuvwxyz>0,1,2,3,4,5,6,7,8,9,10,11,12,13,14,15,16,17,18,19,20,21,22,23,24,25,26,27,28,29,30,31,32,33,34,35,36,37,38,39,40,41,42,43,44,45,46,47,48,49,50,51,52,53,54,55,56,57,58,59,60,61,62,63\n";

// A rule line of so many bytes: a letter behind spaces.
fn rule_line(heap: Global, bytes: usize) -> Result<String, AllocError> {
    let spaces = " ".repeat(heap, bytes.saturating_sub(1))?;
    format!(in heap; "{spaces}a\n")
}

// A lawful file of 64 states with all moves and twelve rules, the last rule line of so many bytes.
fn padded(heap: Global, last: usize) -> Result<String, AllocError> {
    let rows = ROW.repeat(heap, 64)?;
    let eleven = rule_line(heap, 255)?.repeat(heap, 11)?;
    let twelfth = rule_line(heap, last)?;
    format!(in heap; "{rows}{eleven}{twelfth}@13440\n")
}

#[test]
fn each_file_gets_its_line(rt: HostRuntime) -> Result<(), Fail> {
    for file in FILES.iter() {
        gets(rt.alloc(), file.text, file.line)?;
    }
    Ok(())
}

#[test]
fn a_file_may_have_16384_bytes_and_no_more(rt: HostRuntime) -> Result<(), Fail> {
    let heap = rt.alloc();
    let most = padded(heap, 120)?;
    assert_eq!(rt; most.len(), 16384);
    gets(heap, most.as_str(), "states 64 rules 12\n")?;
    gets(heap, padded(heap, 121)?.as_str(), "refused 27 file 0\n")
}

#[test]
fn a_rule_line_may_have_255_bytes_and_no_more(rt: HostRuntime) -> Result<(), Fail> {
    let heap = rt.alloc();
    let longest = rule_line(heap, 255)?;
    let taken = format!(in heap; "*>0\n{longest}@4\n")?;
    gets(heap, taken.as_str(), "states 1 rules 1\n")?;
    let longer = rule_line(heap, 256)?;
    let refused = format!(in heap; "*>0\n{longer}@4\n")?;
    gets(heap, refused.as_str(), "refused 6 rule 4\n")
}

#[test]
fn a_buffer_of_1023_bytes_is_left_alone(rt: HostRuntime) -> Result<(), Fail> {
    let mut buffer = [FILLER; 1023];
    let Err(refusal) = listing(rt.alloc(), b"*>0\n@4\n", &mut buffer) else {
        return Err(Fail::new("a short buffer was taken"));
    };
    assert_eq!(rt; refusal.length, 0);
    assert_eq!(rt; refusal.fault, FileFault::Buffer);
    assert!(rt; buffer.iter().all(|b| *b == FILLER));
    Ok(())
}
