//! Lines as a shell reads them.

use caps_lines::{Verb, push_line, push_shell_word};
use common_types::OutOfMemory;
use gate_files::{Service, ServiceText};
use std::alloc::Global;
use std::test::Fail;

fn word(alloc: Global, text: &str) -> Result<String, OutOfMemory> {
    let mut line = String::new(alloc);
    push_shell_word(&mut line, text)?;
    Ok(line)
}

#[test]
fn words_are_quoted_where_a_shell_would_change_them(rt: HostRuntime) -> Result<(), Fail> {
    let alloc = rt.alloc();
    assert_eq!(rt; word(alloc, "client.web-1")?.as_str(), "client.web-1");
    assert_eq!(rt; word(alloc, "")?.as_str(), "''");
    assert_eq!(rt; word(alloc, "allow r")?.as_str(), "'allow r'");
    assert_eq!(rt; word(alloc, "a'$(id)'b")?.as_str(), "'a'\\''$(id)'\\''b'");
    Ok(())
}

#[test]
fn a_line_has_all_texts_of_an_entity(rt: HostRuntime) -> Result<(), Fail> {
    let alloc = rt.alloc();
    let mon = ServiceText {
        entity: String::from_str(alloc, "client.a")?,
        service: Service::Mon,
        text: String::from_str(alloc, "profile rbd")?,
    };
    let mut line = String::new(alloc);
    push_line(&mut line, Verb::Replace, "client.a", &[&mon], "allow r")?;
    push_line(&mut line, Verb::Add, "client.b", &[], "")?;
    push_line(&mut line, Verb::Remove, "client.c d", &[], "")?;
    let wanted =
        "ceph auth caps client.a mon 'profile rbd' osd 'allow r'\nceph auth add client.b\nceph auth rm 'client.c d'\n";
    assert_eq!(rt; line.as_str(), wanted);
    Ok(())
}
