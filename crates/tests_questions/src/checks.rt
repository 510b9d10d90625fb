//! The command on files that stand in the tests alone.

use check_commands::run_check;
use command_arguments::command_words;
use gate_files::InputFiles;
use std::alloc::Global;
use std::test::Fail;
use std::{io, str};

#[derive(Clone, Copy)]
struct TestFiles {
    alloc: Global,
}

const AUTH: &str = r#"[
{"entity":"client.admin","key":"","caps":{"osd":"allow *"}},
{"entity":"client.backup","key":"","caps":{"osd":"allow r"}},
{"entity":"client.web","key":"","caps":{"osd":"allow rw pool=web, allow w pool=mail"}},
{"entity":"client.bad","key":"","caps":{"osd":"allow q"}}]"#;

const POOLS: &str = r#"[{"pool_name":"web","application_metadata":{}}]"#;

fn file_of(path: &str) -> Option<&'static str> {
    match path {
        "auth" => Some(AUTH),
        "pools" => Some(POOLS),
        "kept" => Some("always client.backup 'allow r'\n"),
        "broken" => Some("# mail\n\nnever client.web 'allow w pool=mail'\n"),
        "unread" => Some("never client.bad 'allow r'\n"),
        "nobody" => Some("apart client.web client.wbe\n"),
        "bad" => Some("# one\nnever client.web\nalways 'nobody'\n"),
        "empty" => Some("# nothing\n"),
        _ => None,
    }
}

impl InputFiles for TestFiles {
    fn read_bytes(&self, path: &str, _most: u64) -> io::Result<Vec<u8>> {
        match file_of(path) {
            None => Err(io::Error::from(io::ErrorKind::NotFound)),
            Some(text) => Ok(String::from_str(self.alloc, text)?.into_bytes()),
        }
    }
}

/// Words, what they write on standard output and on standard error, and the status.
type Row = (&'static [&'static str], &'static str, &'static str, u8);

const ROWS: &[Row; 9] = &[
    (
        &["osdgate", "check", "kept", "--auth", "auth"],
        "holds 1 always client.backup 'allow r'\nrules 1, hold 1, fail 0, name nobody 0\n",
        "osdgate: 1 entity is not checked: client.bad (E1)\nosdgate: by the rules of Ceph 16.2.15\n",
        0,
    ),
    (
        &["osdgate", "check", "kept", "--auth", "auth", "--quiet"],
        "rules 1, hold 1, fail 0, name nobody 0\n",
        "osdgate: 1 entity is not checked: client.bad (E1)\nosdgate: by the rules of Ceph 16.2.15\n",
        0,
    ),
    (
        &["osdgate", "check", "broken", "--auth", "auth"],
        "fails 3 never client.web 'allow w pool=mail'\n  client.web is allowed by its grant 2: --pool mail --object a --write\nrules 1, hold 0, fail 1, name nobody 0\n",
        "osdgate: 1 entity is not checked: client.bad (E1)\nosdgate: by the rules of Ceph 16.2.15\n",
        1,
    ),
    (
        &[
            "osdgate", "check", "broken", "--auth", "auth", "--pools", "pools",
        ],
        "holds 3 never client.web 'allow w pool=mail'\nrules 1, hold 1, fail 0, name nobody 0\n",
        "osdgate: 1 entity is not checked: client.bad (E1)\nosdgate: by the rules of Ceph 16.2.15\n",
        0,
    ),
    (
        &["osdgate", "check", "unread", "--auth", "auth"],
        "fails 1 never client.bad 'allow r'\n  client.bad is not checked: E1 CephRefuses at 0\nrules 1, hold 0, fail 1, name nobody 0\n",
        "osdgate: 1 entity is not checked: client.bad (E1)\nosdgate: by the rules of Ceph 16.2.15\n",
        1,
    ),
    (
        &[
            "osdgate", "check", "nobody", "--auth", "auth", "--format", "json",
        ],
        "{\"rules\":\"ceph\",\"checks\":[{\"findings\":[],\"line\":1,\"outcome\":\"nobody\",\"rule\":\"apart client.web client.wbe\"}],\"not_checked\":[{\"entity\":\"client.bad\",\"fault\":{\"byte\":0,\"name\":\"CephRefuses\",\"number\":\"E1\",\"text\":\"E1 CephRefuses at 0\"}}],\"notes\":[\"1 entity is not checked: client.bad (E1)\",\"by the rules of Ceph 16.2.15\"]}\n",
        "osdgate: 1 entity is not checked: client.bad (E1)\nosdgate: by the rules of Ceph 16.2.15\n",
        1,
    ),
    (
        &["osdgate", "check", "bad", "--auth", "auth"],
        "",
        "osdgate: the rules file bad line 2: U3 NoText: expected a capability text in quotes that grants something\nnever client.web\n                ^\n",
        2,
    ),
    (
        &["osdgate", "check", "empty", "--auth", "auth"],
        "",
        "osdgate: the rules file empty is empty\n",
        2,
    ),
    (
        &["osdgate", "check", "-", "--auth", "-"],
        "",
        "osdgate: one file can be standard input, and not two\n",
        2,
    ),
];

#[test]
fn rules_are_checked(rt: HostRuntime) -> Result<(), Fail> {
    let alloc = rt.alloc();
    for (words, expected_out, expected_err, expected_status) in ROWS {
        let mut out: Vec<u8> = Vec::new(alloc);
        let mut err: Vec<u8> = Vec::new(alloc);
        let mut input = "".as_bytes();
        let matches = match command_words(alloc, *words) {
            Ok(matches) => matches,
            Err(_) => return Ok(assert!(rt; false)),
        };
        let Some((_, inner)) = matches.subcommand() else {
            return Ok(assert!(rt; false));
        };
        let files = TestFiles { alloc };
        let status = run_check(alloc, inner, &files, &mut input, &mut out, &mut err);
        assert_eq!(rt;
            str::from_utf8(out.as_slice()).unwrap_or("?"),
            *expected_out
        );
        assert_eq!(rt;
            str::from_utf8(err.as_slice()).unwrap_or("?"),
            *expected_err
        );
        assert_eq!(rt; status, *expected_status);
    }
    Ok(())
}
