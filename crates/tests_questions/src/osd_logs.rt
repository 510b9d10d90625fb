//! Logs as Ceph 16.2.15 writes them.

use log_text::{
    LogReading, allows_each, push_report, push_words, seen_of, standing_of, suggested_text,
};
use std::alloc::Global;
use std::process::Abort;
use std::test::Fail;
use suggest_core::{Division, Grain, Seen};
use verdict_text::{ReadText, Reader, Rules};

const SESSION: &str =
    "2026-11-30T04:23:05.533+0000 7f5d19b706c0 10 osd.0 21 ms_handle_fast_authentication new session 0x7f5d14006580 con 0x7f5cfc000ed0 entity client.tenant-a addr \n";

const GROUP: &str =
    "7f5cf67f46c0 20 osd.0 pg_epoch: 21 pg[1.1( v 21'1 (0'0,21'1] local-lis/les=8/9 n=1 ec=8/8 lis/c=8/8 les/c/f=9/9/0 sis=8) [0] r=0 lpr=8 crt=21'1 lcod 0'0 mlcod 0'0 active+clean] ";

const OPERATION: &str =
    "do_op: op osd_op(client.4173.0:1 1.1 1:9503f1ef:tenant-b::data.1:head [stat] snapc 0=[] ondisk+read+known_if_redirected e21) v8\n";

const DENIED: &str =
    "op_has_sufficient_caps session=0x7f5d14006580 pool=1 (kubernetes tenant-b) pool_app_metadata={rbd={}} need_read_cap=1 need_write_cap=0 classes=[] -> NO\n";

/// A line of a placement group at a time.
fn push_group(log: &mut String, time: &str, text: &str) -> Result<(), Fail> {
    log.push_str(time)?;
    log.push_str(" ")?;
    log.push_str(GROUP)?;
    log.push_str(text)?;
    Ok(())
}

/// A log with one request of an entity, made twice.
fn twice(alloc: Global) -> Result<String, Fail> {
    let mut log = String::from_str(alloc, SESSION)?;
    for time in [
        "2026-11-30T04:23:06.533+0000",
        "2026-11-30T04:23:07.533+0000",
    ] {
        push_group(&mut log, time, OPERATION)?;
        push_group(&mut log, time, DENIED)?;
    }
    Ok(log)
}

/// A log, read in chunks of a size.
fn read_log(alloc: Global, log: &[u8], size: usize) -> Result<LogReading, Fail> {
    let mut reading = LogReading::new(alloc);
    for chunk in log.chunks(size.max(1)) {
        reading.read_chunk(alloc, chunk)?;
    }
    reading.end_file(alloc)?;
    Ok(reading)
}

/// What is printed of the requests, by a text.
fn report(
    rt: &impl Abort,
    alloc: Global,
    reading: &LogReading,
    caps: &str,
) -> Result<String, Fail> {
    let reader = Reader::of(alloc, Rules::Ceph)?;
    let read = reader.read(alloc, caps, None)?;
    let mut text = String::new(alloc);
    for request in reading.requests() {
        let standing = standing_of(alloc, Some(&read), &request.decided)?;
        let summary = reading.summary(request).expect(rt, "it is counted");
        push_report(&mut text, alloc, request, summary, &standing, Some(&read))?;
    }
    Ok(text)
}

#[test]
fn counts_in_chunks_of_any_size(rt: HostRuntime) -> Result<(), Fail> {
    let alloc = rt.alloc();
    let log = twice(alloc)?;
    for size in [1usize, 7, 100, 10_000] {
        let reading = read_log(alloc, log.as_bytes(), size)?;
        let counts = reading.counts();
        assert_eq!(rt; counts.lines, 5);
        assert_eq!(rt; counts.of_osd, 5);
        assert_eq!(rt; counts.known(), 2);
        assert_eq!(rt; reading.requests().len(), 1);
    }
    Ok(())
}

#[test]
fn prints_both_sides(rt: HostRuntime) -> Result<(), Fail> {
    let alloc = rt.alloc();
    let log = twice(alloc)?;
    let reading = read_log(alloc, log.as_bytes(), 64)?;
    let caps = "allow rwx pool=kubernetes namespace=tenant-a, allow w pool=kubernetes";
    let text = report(&rt, alloc, &reading, caps)?;
    assert_eq!(rt;
        text.as_str(),
        "client.tenant-a --pool kubernetes --namespace tenant-b --object data.1 --tag rbd --read\n  denied 2 times, 2026-11-30T04:23:06.533+0000 to 2026-11-30T04:23:07.533+0000\n  1 namespace: asks tenant-b, has tenant-a\n  2 read: asks r, has allow w pool=kubernetes\n"
    );
    Ok(())
}

#[test]
fn shows_what_differs(rt: HostRuntime) -> Result<(), Fail> {
    let alloc = rt.alloc();
    let log = twice(alloc)?;
    let reading = read_log(alloc, log.as_bytes(), 64)?;
    let text = report(&rt, alloc, &reading, "allow r")?;
    assert_eq!(rt;
        text.as_str(),
        "client.tenant-a --pool kubernetes --namespace tenant-b --object data.1 --tag rbd --read\n  denied 2 times, 2026-11-30T04:23:06.533+0000 to 2026-11-30T04:23:07.533+0000\n  differs: the text allows it\n"
    );
    Ok(())
}

#[test]
fn counts_what_is_cut(rt: HostRuntime) -> Result<(), Fail> {
    let alloc = rt.alloc();
    let mut log = twice(alloc)?;
    log.push_str(
        "2026-11-30T04:23:08.533+0000 7f5d19b706c0 10 osd.0 21 ms_handle_fast_authentication new session 0x7f\n",
    )?;
    log.push_str("(kubernetes a) op_has_sufficient_caps session=0x1 pool=1 (kub\n")?;
    log.push_str("2026-11-30T04:23:08.533+0000 7f5d19b706c0 10 mon.a@0(leader) e1 handle\n")?;
    let mut bytes = log.into_bytes();
    bytes.extend_from_slice(b"\xff\xfe\n")?;
    bytes.extend_from_slice(b"2026-11-30T04:23:09.533+0000 ")?;
    bytes.extend_from_slice(GROUP.as_bytes())?;
    bytes.extend_from_slice(b"op_has_sufficient_caps session=0x7f5d14006580 pool=1 (kuber")?;
    let reading = read_log(alloc, bytes.as_slice(), 50)?;
    let counts = reading.counts();
    assert_eq!(rt; counts.cut, 3);
    assert_eq!(rt; counts.not_text, 1);
    assert_eq!(rt; counts.decisions, 2);
    Ok(())
}

const HOSTILE: &str =
    "do_op: op osd_op(client.4173.0:1 1.1 1:9503f1ef:a) pool_app_metadata={} need_read_cap=0 need_write_cap=1 classes=[] -> yes::x%3a y:head [stat] e21) v8\n";

const HOSTILE_DENIED: &str =
    "op_has_sufficient_caps session=0x7f5d14006580 pool=1 (my pool a) pool_app_metadata={} need_read_cap=0 need_write_cap=1 classes=[] -> yes) pool_app_metadata={cephfs={data=a,metadata=b},rbd={}} need_read_cap=0 need_write_cap=0 classes=[class lock method lock rd 1 wr 1 allowed 1,class hello method hi rd 1 wr 0 allowed 0] -> NO\n";

#[test]
fn is_not_led_by_names(rt: HostRuntime) -> Result<(), Fail> {
    let alloc = rt.alloc();
    let mut log = String::from_str(alloc, SESSION)?;
    push_group(&mut log, "2026-11-30T04:23:06.533+0000", HOSTILE)?;
    push_group(&mut log, "2026-11-30T04:23:06.533+0000", HOSTILE_DENIED)?;
    let reading = read_log(alloc, log.as_bytes(), 64)?;
    assert_eq!(rt; reading.requests().len(), 1);
    let request = reading.requests().first().expect(&rt, "it is counted");
    assert!(rt; !request.decided.allowed);
    let mut text = String::new(alloc);
    push_words(&mut text, alloc, &request.decided)?;
    assert_eq!(rt;
        text.as_str(),
        "--pool 'my pool' --namespace 'a) pool_app_metadata={} need_read_cap=0 need_write_cap=1 classes=[] -> yes' --object 'x: y' --tag cephfs:data=a --tag cephfs:metadata=b --tag rbd --call lock.lock:rw:listed --call hello.hi:r"
    );
    Ok(())
}

#[test]
fn suggests_what_ceph_reads(rt: HostRuntime) -> Result<(), Fail> {
    let alloc = rt.alloc();
    let log = twice(alloc)?;
    let reading = read_log(alloc, log.as_bytes(), 64)?;
    let mut seen = Vec::new(alloc);
    for request in reading.requests() {
        seen.push(seen_of(&request.decided)?)?;
    }
    let grain = Grain {
        by: Division::Namespace,
        tags: Vec::new(alloc),
    };
    let text = suggested_text(alloc, &grain, false, seen.as_slice())?;
    let text = text.ok().expect(&rt, "it is suggested");
    assert_eq!(rt; text.as_str(), "allow r pool=kubernetes namespace=tenant-b");
    let reader = Reader::of(alloc, Rules::Ceph)?;
    let read = ReadText::of(alloc, &reader, text, None)?;
    match read.read() {
        Ok(rights) => assert!(rt; allows_each(alloc, rights, seen.as_slice())?),
        Err(_) => assert!(rt; false),
    }
    Ok(())
}
