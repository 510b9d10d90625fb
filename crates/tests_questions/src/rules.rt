//! Files of rules: what is read of them, their faults, and whether their rules hold of a small cluster.

use common_types::OutOfMemory;
use rules_text::{check_json, check_junit, check_report, check_rules, read_rules, some_fail};
use std::alloc::Global;
use std::test::Fail;
use verdict_text::{ReadEntity, ReadText, Reader, Rules};

/// A small cluster: names and texts.
const CLUSTER: &[(&str, &str); 6] = &[
    ("client.admin", "allow *"),
    ("client.backup", "allow r"),
    ("client.mail", "allow rw pool=mail"),
    (
        "client.web",
        "allow rw pool=web namespace=web, allow w pool=mail",
    ),
    ("client.web-2", "allow rw pool=web namespace=web"),
    ("osd.0", "allow *"),
];

fn entity(alloc: Global, by: &Reader, name: &str, text: &str) -> Result<ReadEntity, OutOfMemory> {
    Ok(ReadEntity {
        name: String::from_str(alloc, name)?,
        osd: ReadText::of(alloc, by, String::from_str(alloc, text)?, None)?,
    })
}

fn entities(alloc: Global, by: &Reader) -> Result<Vec<ReadEntity>, OutOfMemory> {
    let mut all = Vec::new(alloc);
    for (name, text) in CLUSTER {
        all.push(entity(alloc, by, name, text)?)?;
    }
    Ok(all)
}

/// What is printed where the cluster is checked by these rules, or their first fault.
fn report(alloc: Global, text: &str) -> Result<String, OutOfMemory> {
    let by = Reader::of(alloc, Rules::Ceph)?;
    let all = entities(alloc, &by)?;
    match read_rules(alloc, &by, all.as_slice(), text)? {
        Err(bad) => {
            let line = bad.line;
            let at = bad.at;
            let fault = bad.fault;
            format!(in alloc; "{line}:{at} {fault}")
        }
        Ok(rules) => {
            let checked = check_rules(alloc, None, rules.as_slice(), all.as_slice(), &mut ())?;
            check_report(alloc, all.as_slice(), false, checked.as_slice())
        }
    }
}

/// Each file of rules beside its first fault: the line, the position in it, and the fault.
const FAULTS: &[(&str, &str); 33] = &[
    ("nothing", "1:0 U1 UnknownWord"),
    ("'never' a 'allow r'", "1:0 U1 UnknownWord"),
    ("# a note\n\n  Never a 'allow r'", "3:2 U1 UnknownWord"),
    ("never", "1:5 U3 NoText"),
    ("never 'allow r'", "1:6 U2 NoEntities"),
    ("never except a 'allow r'", "1:6 U2 NoEntities"),
    ("never a except 'allow r'", "1:15 U2 NoEntities"),
    ("group", "1:5 U2 NoEntities"),
    ("group g", "1:7 U2 NoEntities"),
    ("apart a", "1:7 U2 NoEntities"),
    ("never a", "1:7 U3 NoText"),
    ("never a ''", "1:8 U3 NoText"),
    ("never a 'allow r", "1:8 U4 OpenQuote"),
    ("never a \"allow r'", "1:8 U4 OpenQuote"),
    ("never a 'allow q'", "1:9 U5 BadText E1 CephRefuses at 0"),
    ("group g a\ngroup g b", "2:6 U6 DoubledGroup"),
    ("group client.web a", "1:6 U7 GroupIsEntity"),
    ("never a*b 'allow r'", "1:6 U8 StarInside"),
    ("never ** 'allow r'", "1:6 U8 StarInside"),
    ("group g* a", "1:6 U8 StarInside"),
    ("never caf\u{e9} 'allow r'", "1:9 U13 BadByte"),
    ("never a'b' 'allow r'", "1:7 U14 StrayQuote"),
    ("never a 'allow r'b", "1:17 U14 StrayQuote"),
    ("never a except b except c 'allow r'", "1:17 U15 BadExcept"),
    ("group except a", "1:6 U15 BadExcept"),
    ("group g a except b", "1:10 U15 BadExcept"),
    ("group g 'a'", "1:8 U16 QuotedName"),
    ("apart a 'b'", "1:8 U16 QuotedName"),
    ("never a 'allow r' b", "1:18 U17 ExtraWord"),
    ("never a 'allow r' 'allow w'", "1:18 U17 ExtraWord"),
    ("apart a b c", "1:10 U17 ExtraWord"),
    ("never a 'allow r'\nnever b\nnever 'c'", "2:7 U3 NoText"),
    (
        "# caf\u{e9} 'and \"so\nnever\ta*\t'allow q'",
        "2:10 U5 BadText E1 CephRefuses at 0",
    ),
];

#[test]
fn first_faults_are_named(rt: HostRuntime) -> Result<(), Fail> {
    for (text, expected) in FAULTS {
        let found = report(rt.alloc(), text)?;
        assert_eq!(rt; found.as_str(), *expected, "{text}");
    }
    Ok(())
}

/// Each file of rules beside what is printed.
const REPORTS: &[(&str, &str); 8] = &[
    (
        "always client.backup 'allow r'",
        "holds 1 always client.backup 'allow r'\nrules 1, hold 1, fail 0, name nobody 0\n",
    ),
    (
        "never * except client.admin osd.* client.mail 'allow w pool=mail'",
        "fails 1 never * except client.admin osd.* client.mail 'allow w pool=mail'\n  client.web is allowed by its grant 2: --pool mail --object a --write\nrules 1, hold 0, fail 1, name nobody 0\n",
    ),
    (
        "group web client.web client.web-*\n\nnever web 'allow rwx pool=backup'",
        "holds 3 never web 'allow rwx pool=backup'\nrules 1, hold 1, fail 0, name nobody 0\n",
    ),
    (
        "never client.nobody 'allow r'",
        "nobody 1 never client.nobody 'allow r'\nrules 1, hold 0, fail 0, name nobody 1\n",
    ),
    (
        "apart client.mail client.web",
        "fails 1 apart client.mail client.web\n  client.mail is allowed by its grant 1: --pool mail --object a --write\n  client.web is allowed by its grant 2: --pool mail --object a --write\nrules 1, hold 0, fail 1, name nobody 0\n",
    ),
    (
        "apart client.mail client.web-2",
        "holds 1 apart client.mail client.web-2\nrules 1, hold 1, fail 0, name nobody 0\n",
    ),
    (
        "always client.mail 'allow r pool=mail, allow r pool=web namespace=web'",
        "fails 1 always client.mail 'allow r pool=mail, allow r pool=web namespace=web'\n  client.mail is denied, by the rule's grant 2: --pool web --namespace web --object a --read\nrules 1, hold 0, fail 1, name nobody 0\n",
    ),
    (
        "apart client.web client.backup",
        "fails 1 apart client.web client.backup\n  client.web is allowed by its grant 1: --pool web --namespace web --object a --write\n  client.backup is allowed by its grant 1: --pool web --namespace web --object a --read\nrules 1, hold 0, fail 1, name nobody 0\n",
    ),
];

#[test]
fn rules_are_checked(rt: HostRuntime) -> Result<(), Fail> {
    for (text, expected) in REPORTS {
        let found = report(rt.alloc(), text)?;
        assert_eq!(rt; found.as_str(), *expected, "{text}");
    }
    Ok(())
}

#[test]
fn entities_that_cannot_be_read_fail(rt: HostRuntime) -> Result<(), Fail> {
    let alloc = rt.alloc();
    let by = Reader::of(alloc, Rules::Ceph)?;
    let all = [entity(alloc, &by, "client.<a>", "allow q")?];
    let rules = match read_rules(alloc, &by, all.as_slice(), "never * 'allow r'")? {
        Ok(rules) => rules,
        Err(_) => return Ok(assert!(rt; false)),
    };
    let checked = check_rules(alloc, None, rules.as_slice(), all.as_slice(), &mut ())?;
    assert!(rt; some_fail(checked.as_slice()));
    let text = check_report(alloc, all.as_slice(), true, checked.as_slice())?;
    assert_eq!(rt;
        text.as_str(),
        "fails 1 never * 'allow r'\n  client.<a> is not checked: E1 CephRefuses at 0\nrules 1, hold 0, fail 1, name nobody 0\n"
    );
    let json = check_json(alloc, all.as_slice(), checked.as_slice())?;
    assert_eq!(rt;
        json.as_str(),
        "{\"checks\":[{\"findings\":[{\"entity\":\"client.<a>\",\"fault\":{\"byte\":0,\"name\":\"CephRefuses\",\"number\":\"E1\",\"text\":\"E1 CephRefuses at 0\"}}],\"line\":1,\"outcome\":\"fails\",\"rule\":\"never * 'allow r'\"}]}\n"
    );
    let junit = check_junit(alloc, Rules::Ceph, all.as_slice(), checked.as_slice())?;
    assert_eq!(rt;
        junit.as_str(),
        "<?xml version=\"1.0\" encoding=\"UTF-8\"?>\n<testsuites>\n<testsuite name=\"osdgate check --rules ceph\" tests=\"1\" failures=\"1\">\n<testcase classname=\"rules\" name=\"1 never * 'allow r'\">\n<failure message=\"fails\">  client.&lt;a&gt; is not checked: E1 CephRefuses at 0\n</failure>\n</testcase>\n</testsuite>\n</testsuites>\n"
    );
    Ok(())
}

/// A group of the largest line, doubled once by another, names too many.
#[test]
fn limits_are_named(rt: HostRuntime) -> Result<(), Fail> {
    let mut text = String::from_str(rt.alloc(), "group g")?;
    for _ in 0..4090 {
        text.push_str(" a")?;
    }
    text.push_str("\nnever g g 'allow r'\n")?;
    assert_eq!(rt;
        report(rt.alloc(), text.as_str())?.as_str(),
        "2:6 U12 TooManyNames"
    );
    let mut text = String::new(rt.alloc());
    for _ in 0..9000 {
        text.push_str("#")?;
    }
    assert_eq!(rt;
        report(rt.alloc(), text.as_str())?.as_str(),
        "rules 0, hold 0, fail 0, name nobody 0\n"
    );
    let mut text = String::from_str(rt.alloc(), "never ")?;
    for _ in 0..9000 {
        text.push_str("a")?;
    }
    assert_eq!(rt;
        report(rt.alloc(), text.as_str())?.as_str(),
        "1:8192 U10 LineTooLong"
    );
    Ok(())
}

/// This many lines, each with its number where the text has a `#`.
fn numbered(alloc: Global, count: usize, front: &str, back: &str) -> Result<String, OutOfMemory> {
    let mut text = String::new(alloc);
    for number in 0..count {
        text.push_str(format!(in alloc; "{front}{number}{back}\n")?.as_str())?;
    }
    Ok(text)
}

/// The last line that a limit allows is read, and the next one is not.
#[test]
fn limits_of_files_are_named(rt: HostRuntime) -> Result<(), Fail> {
    let alloc = rt.alloc();
    let mut groups = numbered(alloc, 1_024, "group g", " client.mail")?;
    groups.push_str("always g1023 'allow r pool=mail'\n")?;
    let held = report(alloc, groups.as_str())?;
    assert!(rt;
        held.as_str()
            .ends_with("rules 1, hold 1, fail 0, name nobody 0\n")
    );
    groups.push_str("group more client.mail\n")?;
    assert_eq!(rt;
        report(alloc, groups.as_str())?.as_str(),
        "1026:6 U18 TooManyGroups"
    );
    let rules = numbered(alloc, 4_097, "never client.mail 'allow r pool=", "'")?;
    assert_eq!(rt;
        report(alloc, rules.as_str())?.as_str(),
        "4097:0 U11 TooManyRules"
    );
    let mut lines = numbered(alloc, 65_536, "# ", "")?;
    lines.push_str("never")?;
    assert_eq!(rt;
        report(alloc, lines.as_str())?.as_str(),
        "65537:0 U9 TooManyLines"
    );
    Ok(())
}

/// Entities of which some have nothing for the pool `mail`.
const SCATTERED: &[(&str, &str); 6] = &[
    ("client.far", "allow rw pool=web"),
    ("client.network", "allow w pool=mail network 10.0.0.0/8"),
    ("client.near", "allow r pool=mail, allow w pool=web"),
    ("client.open", "allow w object_prefix x"),
    ("client.refused", "allow q"),
    ("client.mail", "allow rw pool=mail"),
];

/// A rule about one pool finds who has a grant for it, for every pool, or with a network, and whose text is refused, in order.
#[test]
fn rules_about_a_pool_find_entities(rt: HostRuntime) -> Result<(), Fail> {
    let alloc = rt.alloc();
    let by = Reader::of(alloc, Rules::Ceph)?;
    let mut all = Vec::new(alloc);
    for (name, text) in SCATTERED {
        all.push(entity(alloc, &by, name, text)?)?;
    }
    let text =
        "never * except client.mail 'allow w pool=mail'\napart client.mail client.f*\napart client.mail client.o*";
    let rules = match read_rules(alloc, &by, all.as_slice(), text)? {
        Ok(rules) => rules,
        Err(_) => return Ok(assert!(rt; false)),
    };
    let checked = check_rules(alloc, None, rules.as_slice(), all.as_slice(), &mut ())?;
    let text = check_report(alloc, all.as_slice(), false, checked.as_slice())?;
    assert_eq!(rt;
        text.as_str(),
        "fails 1 never * except client.mail 'allow w pool=mail'\n  client.network is allowed by its grant 1: --pool mail --object a --write --from 10.0.0.0\n  client.open is allowed by its grant 1: --pool mail --object x --write\n  client.refused is not checked: E1 CephRefuses at 0\nholds 2 apart client.mail client.f*\nfails 3 apart client.mail client.o*\n  client.mail is allowed by its grant 1: --pool mail --object x --write\n  client.open is allowed by its grant 1: --pool mail --object x --write\nrules 3, hold 1, fail 2, name nobody 0\n"
    );
    Ok(())
}
