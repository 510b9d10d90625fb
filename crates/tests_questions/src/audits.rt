//! The commands, `audit` in each of its forms, on files of the tests.

use audit_commands::{audit, output_of, reach};
use command_arguments::command_words;
use command_steps::NoAnswer;
use gate_files::InputFiles;
use std::alloc::Global;
use std::io;
use std::test::Fail;

/// Two entities with one text, one whose name is a tag, and one whose text is refused.
const AUTH: &str =
    r#"[{"entity":"osd.1","caps":{"osd":"allow *"}},{"entity":"osd.0","caps":{"osd":"allow *"}},{"entity":"client.<b>","caps":{"osd":"allow r pool=gone, allow rw pool=web"}},{"entity":"client.bad","caps":{"osd":"allow rw pol=web"}}]"#;

const POOLS: &str =
    r#"[{"pool_name":"web","application_metadata":{}},{"pool_name":"logs","application_metadata":{}}]"#;

#[derive(Clone, Copy)]
struct TestFiles {
    alloc: Global,
}

impl InputFiles for TestFiles {
    fn read_bytes(&self, path: &str, _most: u64) -> io::Result<Vec<u8>> {
        let text = if path == "auth" { AUTH } else { POOLS };
        Ok(String::from_str(self.alloc, text)?.into_bytes())
    }
}

/// What is printed in a form, and whether the command fails; nothing where there is no answer.
fn answer(alloc: Global, format: &str) -> Option<(String, bool)> {
    let words = [
        "osdgate", "audit", "--auth", "auth", "--pools", "pools", "--output", "table", "--format",
        format,
    ];
    let matches = command_words(alloc, &words).ok()?;
    let (_, inner) = matches.subcommand()?;
    if output_of(inner) != Some("table") {
        return None;
    }
    let files = TestFiles { alloc };
    let mut input: &[u8] = b"";
    let answered: Result<_, NoAnswer> = audit(alloc, inner, &files, &mut input);
    let answered = answered.ok()?;
    let text = answered.printed.text.clone().ok()?;
    Some((text, answered.printed.fails))
}

/// Whether the answer in a form fails, since an entity is not checked, and has these parts.
fn has_parts(alloc: Global, format: &str, parts: &[&str]) -> bool {
    match answer(alloc, format) {
        Some((text, true)) => parts.iter().all(|part| text.as_str().contains(*part)),
        _ => false,
    }
}

#[test]
fn each_form_has_its_rows(rt: HostRuntime) -> Result<(), Fail> {
    let alloc = rt.alloc();
    let table = "entity,logs,web\nclient.<b>,-,rwl\nosd.0,*,*\nosd.1,*,*\nclient.bad,?,?\n";
    assert!(rt; has_parts(alloc, "csv", &[table]), "csv");
    let rows = [
        "\nosd.0 +1         *       *\n",
        "\n  client.<b> 1 matches no pool\n",
    ];
    assert!(rt; has_parts(alloc, "text", &rows), "text");
    let members = [
        "\"found\":\"matches no pool\",\"grant\":1",
        "\"notes\":[\"1 entity",
    ];
    assert!(rt; has_parts(alloc, "json", &members), "json");
    let rows = [
        "<a href=\"#e0\">client.&lt;b&gt;</a>",
        "one of 2",
        "data-p=\"1 \"",
    ];
    assert!(rt; has_parts(alloc, "html", &rows), "html");
    Ok(())
}

/// What `reach` prints of an entity, and whether it fails; nothing where there is no answer.
fn reached(alloc: Global, entity: &str) -> Option<(String, bool)> {
    let words = [
        "osdgate", "reach", "--auth", "auth", "--pools", "pools", entity,
    ];
    let matches = command_words(alloc, &words).ok()?;
    let (_, inner) = matches.subcommand()?;
    let files = TestFiles { alloc };
    let mut input: &[u8] = b"";
    let answered: Result<_, NoAnswer> = reach(alloc, inner, &files, &mut input);
    let answered = answered.ok()?;
    let text = answered.printed.text.clone().ok()?;
    Some((text, answered.printed.fails))
}

#[test]
fn one_entity_has_a_line_for_each_pool(rt: HostRuntime) -> Result<(), Fail> {
    let lines = "logs -\nweb rwl\n  2 allow rw pool=web\n";
    let is_right = match reached(rt.alloc(), "client.<b>") {
        Some((text, false)) => text.as_str() == lines,
        _ => false,
    };
    assert!(rt; is_right, "lines");
    Ok(())
}
