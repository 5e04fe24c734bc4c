//! The commands, with their plans and traces. The texts stand in statics, so that no proof computes with them.

use crate::calls::calls::{End, Run, Text};

/// The first lines of a text, as many as this.
pub fn first_lines(text: &[u8], count: usize) -> &[u8] {
    let mut lines = 0usize;
    for place in 0..text.len() {
        if lines == count {
            return &text[..place];
        }
        if text[place] == b'\n' {
            lines = lines.saturating_add(1);
        }
    }
    text
}

/// A device that is enabled, used and given back.
const USED: Text = Text::Written(
    "[[device]]
name = \"a\"
[[caller]]
name = \"c\"
script = [\"enable a\", \"get_sync a\", \"put_noidle a\"]
",
);

/// A device that is used and isn't enabled.
const DISABLED: Text = Text::Written(
    "[[device]]
name = \"a\"
[[caller]]
name = \"c\"
script = [\"get_sync a\"]
",
);

/// The trace of that plan's run.
const GOOD: Text = Text::Written(
    "0 c pm_call: get_sync a
0 c pm_get: a caller
0 c rpm_resume: a flags-4 cnt-1  dep-1  auto-1 p-0 irq-0 child-0
0 c rpm_return_int: rpm_resume:a ret=-13
0 c pm_ret: get_sync a -13
",
);

/// The same with a count that the run hasn't.
const BAD: Text = Text::Written(
    "0 c pm_call: get_sync a
0 c pm_get: a caller
0 c rpm_resume: a flags-4 cnt-2  dep-1  auto-1 p-0 irq-0 child-0
0 c rpm_return_int: rpm_resume:a ret=-13
0 c pm_ret: get_sync a -13
",
);

const NOTHING: Text = Text::Written("");

/// How a command but an audit ends over the bad trace.
const REFUSED: End<'static> = End {
    status: 1,
    out: b"",
    err: b"no line 3 step\n",
};

/// The runs, each with how often it calls its files: the start, the read and the read at the end, of each that it
/// reads.
pub static RUNS: [(u64, Run); 16] = [
    (
        3,
        Run {
            shows: "serial",
            words: "serial plan",
            plan: USED,
            trace: NOTHING,
            end: End {
                status: 0,
                out: b"0 c pm_call: enable a
0 c pm_ret: enable a 0
0 c pm_call: get_sync a
0 c pm_get: a caller
0 c rpm_resume: a flags-4 cnt-1  dep-0  auto-1 p-0 irq-0 child-0
0 c pm_status: a resuming
0 c pm_callback: a resume begin
0 c pm_callback: a resume end 0
0 c pm_status: a active
0 c rpm_idle: a flags-1 cnt-1  dep-0  auto-1 p-0 irq-0 child-0
0 c rpm_return_int: rpm_idle:a ret=-11
0 c rpm_return_int: rpm_resume:a ret=0
0 c pm_ret: get_sync a 0
0 c pm_call: put_noidle a
0 c pm_put: a caller
0 c pm_ret: put_noidle a 0
",
                err: b"",
            },
        },
    ),
    (
        3,
        Run {
            shows: "serial of a run that has all its lines",
            words: "serial plan",
            plan: Text::Written("lines = 1\ncaller = [{name = 'c', script = ['delay 1']}]"),
            trace: NOTHING,
            end: End {
                status: 6,
                out: b"0 c pm_call: delay 1\n",
                err: b"limit\n",
            },
        },
    ),
    (
        3,
        Run {
            shows: "serial in format 2",
            words: "serial plan",
            plan: Text::Written("trace = 2"),
            trace: NOTHING,
            end: End {
                status: 0,
                out: b"pm_trace 2\n",
                err: b"",
            },
        },
    ),
    (
        3,
        Run {
            shows: "serial of a text that is no plan",
            words: "serial plan",
            plan: Text::Written("[[device"),
            trace: NOTHING,
            end: End {
                status: 3,
                out: b"",
                err: b"plan: not_toml top 0 0\n",
            },
        },
    ),
    (
        3,
        Run {
            shows: "check",
            words: "check plan",
            plan: USED,
            trace: NOTHING,
            end: End {
                status: 0,
                out: b"devices 1 domains 0 links 0 callers 1 islands 1\n",
                err: b"",
            },
        },
    ),
    (
        0,
        Run {
            shows: "make",
            words: "make 0 1",
            plan: NOTHING,
            trace: NOTHING,
            end: End {
                status: 0,
                out: b"devices 1 lines 2298 resumes 1 suspends 1 idles 7 finished\n",
                err: b"",
            },
        },
    ),
    (
        6,
        Run {
            shows: "audit",
            words: "audit plan trace",
            plan: DISABLED,
            trace: GOOD,
            end: End {
                status: 0,
                out: b"yes finished\n",
                err: b"",
            },
        },
    ),
    (
        6,
        Run {
            shows: "audit of a bad trace",
            words: "audit plan trace",
            plan: DISABLED,
            trace: BAD,
            end: End {
                status: 1,
                out: b"no line 3 step\n",
                err: b"",
            },
        },
    ),
    (
        6,
        Run {
            shows: "convert",
            words: "convert plan trace",
            plan: DISABLED,
            trace: GOOD,
            end: End {
                status: 0,
                out: b"pm_trace 2
0 c pm_call: get_sync a
0 c pm_get: a caller
0 c rpm_resume: a flags-4 cnt-1  dep-1  auto-1 p-0 irq-0 child-0
0 c rpm_return_int: rpm_resume:a ret=-13
0 c pm_ret: get_sync a -13
",
                err: b"",
            },
        },
    ),
    (
        6,
        Run {
            shows: "convert of a bad trace",
            words: "convert plan trace",
            plan: DISABLED,
            trace: BAD,
            end: REFUSED,
        },
    ),
    (
        6,
        Run {
            shows: "times",
            words: "times plan trace",
            plan: DISABLED,
            trace: GOOD,
            end: End {
                status: 0,
                out: b"a active 0 suspended 0 moving 0\n",
                err: b"",
            },
        },
    ),
    (
        6,
        Run {
            shows: "times of a bad trace",
            words: "times plan trace",
            plan: DISABLED,
            trace: BAD,
            end: REFUSED,
        },
    ),
    (
        6,
        Run {
            shows: "why",
            words: "why plan trace a",
            plan: DISABLED,
            trace: GOOD,
            end: End {
                status: 0,
                out: b"depth 1
count caller line 2
status suspended
",
                err: b"",
            },
        },
    ),
    (
        6,
        Run {
            shows: "why of a bad trace",
            words: "why plan trace a",
            plan: DISABLED,
            trace: BAD,
            end: REFUSED,
        },
    ),
    (
        3,
        Run {
            shows: "why of an unknown device, which is sought before the trace",
            words: "why plan trace z",
            plan: DISABLED,
            trace: GOOD,
            end: End {
                status: 3,
                out: b"",
                err: b"device: unknown\n",
            },
        },
    ),
    (
        3,
        Run {
            shows: "audit of a refused plan, whose trace isn't read",
            words: "audit plan trace",
            plan: Text::Written("[[device"),
            trace: GOOD,
            end: End {
                status: 3,
                out: b"",
                err: b"plan: not_toml top 0 0\n",
            },
        },
    ),
];

/// How a command over a trace with too many bytes ends.
const TOO_LONG: End<'static> = End {
    status: 3,
    out: b"",
    err: b"trace: too_long\n",
};

/// One byte more than a trace may have.
const LONG_TRACE: Text = Text::Filled(b'0', 67_108_865);

/// Texts with as many bytes as one may have, and one more.
pub static LONG: [Run; 4] = [
    Run {
        shows: "a plan may have 1,048,576 bytes",
        words: "serial plan",
        plan: Text::Filled(b' ', 1_048_576),
        trace: NOTHING,
        end: End {
            status: 0,
            out: b"",
            err: b"",
        },
    },
    Run {
        shows: "a plan with one byte more is refused",
        words: "serial plan",
        plan: Text::Filled(b' ', 1_048_577),
        trace: NOTHING,
        end: End {
            status: 3,
            out: b"",
            err: b"plan: too_long top 0 0\n",
        },
    },
    Run {
        shows: "a trace with 67,108,865 bytes is refused by audit",
        words: "audit plan trace",
        plan: DISABLED,
        trace: LONG_TRACE,
        end: TOO_LONG,
    },
    Run {
        shows: "a trace with 67,108,865 bytes is refused by convert",
        words: "convert plan trace",
        plan: DISABLED,
        trace: LONG_TRACE,
        end: TOO_LONG,
    },
];
