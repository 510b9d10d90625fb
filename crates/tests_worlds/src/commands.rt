//! Each command once, on files and workers of the tests.

use super::files::TestFiles;
use crate::expecting::expect_so;
use command_line::run_command;
use std::alloc::Global;
use std::process::Abort;

/// What a command writes on standard output and standard error, and its status.
#[derive(Drop)]
struct Ran {
    out: Vec<u8>,
    err: Vec<u8>,
    status: u8,
}

/// Words behind the program's name; what must be written on standard output and on standard error; and the status.
type Row = (&'static [&'static str], &'static str, &'static str, u8);

/// What every command reads on standard input.
const INPUT: &str = "osds 1\n";

/// The line on standard error of an answer on a file of entities.
const BY_CEPH: &str = "osdgate: by the rules of Ceph 16.2.15\n";

const ROWS: &[Row; 16] = &[
    (
        &[
            "osdgate", "verdict", "--caps", "allow r", "--pool", "data", "--object", "x", "--write",
        ],
        "deny\n1 write   allow r\n",
        "",
        0,
    ),
    (
        &["osdgate", "explain", "--caps", "deny r"],
        "refused C3 UnknownWord at 0\n",
        "deny r\n^\nosdgate: there is no `deny`: what no grant allows is denied\n",
        1,
    ),
    (
        &[
            "osdgate", "compare", "--old", "allow r", "--new", "allow rw", "--check",
        ],
        "wider\n+ 1 --pool '<any>' --namespace a --object a --write\n",
        "",
        1,
    ),
    (
        &["osdgate", "compare", "--auth", "app", "--auth", "nobody"],
        "client.app gone\n  - 1 --pool data --namespace a --object a --read\n",
        BY_CEPH,
        0,
    ),
    (
        &[
            "osdgate", "who", "--auth", "app", "--pool", "data", "--object", "x", "--write",
        ],
        "client.app\n",
        BY_CEPH,
        0,
    ),
    (
        &[
            "osdgate", "audit", "--auth", "app", "--pools", "pools", "--format", "csv",
        ],
        "entity,data\nclient.app,rwl\n",
        BY_CEPH,
        0,
    ),
    (
        &[
            "osdgate", "audit", "--auth", "app", "--pools", "pools", "--output", "table",
        ],
        "",
        "osdgate: the output cannot be written: permission denied\n",
        2,
    ),
    (
        &[
            "osdgate", "who", "--auth", "-", "--pool", "data", "--object", "x", "--write",
        ],
        "",
        "osdgate: standard input is in no form that is read at line 1, column 1; `ceph auth ls --format json` prints what is read\n",
        2,
    ),
    (
        &[
            "osdgate",
            "who",
            "--auth",
            "app",
            "--pools",
            "pools",
            "--requests",
            "requests",
        ],
        "entity            1\nclient.app    allow\n",
        BY_CEPH,
        0,
    ),
    (
        &["osdgate", "explain", "--caps", "", "--format", "json"],
        "{\"rules\":\"project\",\"canonical\":\"\",\"grants\":[],\"not_checked\":[],\"notes\":[]}\n",
        "",
        0,
    ),
    (&["osdgate", "run", "script"], "epoch 1\nepoch 2\n", "", 0),
    (&["osdgate", "run"], "epoch 1\n", "", 0),
    (&["osdgate", "threads", "4"], "4", "", 0),
    (
        &["osdgate", "threads", "1", "--moves"],
        "",
        "osdgate: K2 NoThread\n",
        1,
    ),
    (
        &["osdgate", "threads", "9"],
        "",
        "osdgate: there are 1 to 8 workers\n",
        2,
    ),
    (&["osdgate", "--version"], "osdgate 0.1.0\n", "", 0),
];

/// What stands for workers on threads: a line with their number where groups stay, and no thread where they move.
fn count_workers(workers: u32, moves: bool) -> Result<u32, &'static str> {
    if moves {
        return Err("K2 NoThread");
    }
    Ok(workers)
}

fn run(alloc: Global, words: &[&str]) -> Ran {
    let mut out: Vec<u8> = Vec::new(alloc);
    let mut err: Vec<u8> = Vec::new(alloc);
    let mut input = INPUT.as_bytes();
    let files = TestFiles { alloc };
    let status = run_command(
        alloc,
        words,
        &files,
        count_workers,
        &mut input,
        &mut out,
        &mut err,
    );
    Ran { out, err, status }
}

/// Whether a command writes what its row says, and ends so.
fn goes(alloc: Global, row: &Row) -> bool {
    let (words, out, err, status) = *row;
    let ran = run(alloc, words);
    ran.out.as_slice() == out.as_bytes()
        && ran.err.as_slice() == err.as_bytes()
        && ran.status == status
}

fn expect(rt: &impl Abort, alloc: Global, rows: &[Row]) {
    for row in rows {
        expect_so(rt, goes(alloc, row), row.1);
    }
}

#[test]
fn commands_write_and_end(rt: HostRuntime) {
    expect(&rt, rt.alloc(), ROWS);
}
