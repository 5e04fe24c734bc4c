//! Says of each plan of the folder `data`, and of some that are made here, what `pm_lab say` tells of
//! it.
//!
//! `say.list` names the files in order, and behind a name the file that it stands for, where that is another. What is
//! told is stored, and was read by eye.

use anyhow::Result;
use pm_base::PLAN_BYTES;
use pm_io::{Files, read_all};
use pm_say_driver::say_file;
use std::alloc::{AllocError, Global};
use std::io::{Print, Write};
use std::{io, str};

/// Tells of each plan.
pub fn show<R: Print, F: Files>(rt: &R, alloc: Global, files: &mut F) -> Result<()> {
    let cases = read_all(alloc, files, "say.list", PLAN_BYTES)?;
    for line in str::from_utf8(&cases)?.lines() {
        let (case, file) = line.split_once(' ').unwrap_or((line, line));
        let plan = read_all(alloc, files, file, PLAN_BYTES)?;
        tell(rt, alloc, case, plan.as_slice())?;
    }
    for case in LARGE {
        let plan = plan_of(alloc, case)?;
        tell(rt, alloc, case.name, plan.as_slice())?;
    }
    Ok(())
}

/// Writes what is told of a plan.
fn tell<R: Print>(rt: &R, alloc: Global, case: &str, plan: &[u8]) -> Result<()> {
    let said = say_file(alloc, case.as_bytes(), plan)?;
    let kind = said.kind;
    let mut out = io::writer(rt);
    writeln!(out, "# {kind:?}")?;
    out.write_all(said.text.as_slice())?;
    out.write_all(b"\n")?;
    Ok(())
}

/// A text of a piece again and again, and a tail.
#[derive(Clone, Copy)]
struct Large {
    name: &'static str,
    head: &'static str,
    piece: &'static str,
    count: usize,
    tail: &'static str,
}

const LARGE: [Large; 7] = [
    Large {
        name: "large_comments.toml",
        head: "",
        piece: "# nothing\n",
        count: 104_000,
        tail: "[[device]]\nnmae = \"a\"\n",
    },
    Large {
        name: "large_line.toml",
        head: "",
        piece: "# nothing ",
        count: 104_000,
        tail: "\n[[device]]\nname = \"a\"\nparent = \"b\"\n",
    },
    Large {
        name: "too_long.toml",
        head: "",
        piece: " ",
        count: PLAN_BYTES + 1,
        tail: "",
    },
    Large {
        name: "brackets.toml",
        head: "",
        piece: "[",
        count: PLAN_BYTES,
        tail: "",
    },
    Large {
        name: "quotes.toml",
        head: "",
        piece: "\"",
        count: PLAN_BYTES,
        tail: "",
    },
    Large {
        name: "values.toml",
        head: "x = [",
        piece: "[0, \"\"], ",
        count: 116_000,
        tail: "]\n",
    },
    Large {
        name: "accents.toml",
        head: "",
        piece: "é",
        count: PLAN_BYTES / 2,
        tail: "",
    },
];

fn plan_of(alloc: Global, case: Large) -> Result<Vec<u8>, AllocError> {
    let mut text = Vec::from_slice(alloc, case.head.as_bytes())?;
    for _piece in 0..case.count {
        text.extend_from_slice(case.piece.as_bytes())?;
    }
    text.extend_from_slice(case.tail.as_bytes())?;
    Ok(text)
}
