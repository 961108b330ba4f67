// What no clause can show: cases from the D-Bus Specification, and that the calls succeed.

use bus_names::{
    BusName, Interface, Member, NameFault, ObjectPath, Signature, escape_label, unescape_label,
};
use login_base::NoMemory;
use std::alloc::Global;

/// What a reader is to answer: it reads the text, or it refuses it at an offset.
#[derive(Clone, Copy)]
enum Want {
    Read,
    Bad(usize),
}

/// What a text is read as.
#[derive(Clone, Copy)]
enum Name {
    Path,
    Interface,
    Member,
    Bus,
}

/// Why a text is no such name.
fn fault_of(alloc: Global, name: Name, text: &[u8]) -> Option<NameFault> {
    match name {
        Name::Path => ObjectPath::read(alloc, text).err(),
        Name::Interface => Interface::read(alloc, text).err(),
        Name::Member => Member::read(alloc, text).err(),
        Name::Bus => BusName::read(alloc, text).err(),
    }
}

fn is_as_wanted(alloc: Global, name: Name, text: &[u8], want: Want) -> bool {
    match (fault_of(alloc, name, text), want) {
        (None, Want::Read) => true,
        (Some(NameFault::BadName(at)), Want::Bad(offset)) => at == offset,
        _ => false,
    }
}

const PATHS: [(&[u8], Want); 12] = [
    (b"/", Want::Read),
    (b"/com/example/MusicPlayer1", Want::Read),
    (b"/org/freedesktop/login1/session/_31", Want::Read),
    (b"/0/9_", Want::Read),
    (b"", Want::Bad(0)),
    (b"com/example", Want::Bad(0)),
    (b"//", Want::Bad(1)),
    (b"/a//b", Want::Bad(3)),
    (b"/a/", Want::Bad(3)),
    (b"/a-b", Want::Bad(2)),
    (b"/a.b", Want::Bad(2)),
    (b"/a\xc3\xa9", Want::Bad(2)),
];

const INTERFACES: [(&[u8], Want); 9] = [
    (b"org.freedesktop.DBus.Properties", Want::Read),
    (b"com.example.MusicPlayer1.Track", Want::Read),
    (b"org._7_zip.Archiver", Want::Read),
    (b"", Want::Bad(0)),
    (b"org", Want::Bad(3)),
    (b"org.", Want::Bad(4)),
    (b"org..a", Want::Bad(4)),
    (b"org.7zip", Want::Bad(4)),
    (b"org.a-b", Want::Bad(5)),
];

const MEMBERS: [(&[u8], Want); 6] = [
    (b"ListSessions", Want::Read),
    (b"_x1", Want::Read),
    (b"", Want::Bad(0)),
    (b"1x", Want::Bad(0)),
    (b"a.b", Want::Bad(1)),
    (b"a-b", Want::Bad(1)),
];

const BUS_NAMES: [(&[u8], Want); 10] = [
    (b"org.freedesktop.login1", Want::Read),
    (b"com.example-a.backup-agent", Want::Read),
    (b":1.0", Want::Read),
    (b":1.42.9", Want::Read),
    (b"", Want::Bad(0)),
    (b":1", Want::Bad(2)),
    (b":", Want::Bad(1)),
    (b"::1.0", Want::Bad(1)),
    (b"1.0", Want::Bad(0)),
    (b"org.1a", Want::Bad(4)),
];

/// Whether each text is as it is to be.
fn are_as_wanted(alloc: Global, name: Name, cases: &[(&[u8], Want)]) -> bool {
    cases
        .iter()
        .all(|case| is_as_wanted(alloc, name, case.0, case.1))
}

#[test]
fn names_of_the_specification(rt: HostRuntime) {
    let alloc = rt.alloc();
    assert!(rt; are_as_wanted(alloc, Name::Path, &PATHS), "a path");
    assert!(rt;
        are_as_wanted(alloc, Name::Interface, &INTERFACES),
        "an interface"
    );
    assert!(rt; are_as_wanted(alloc, Name::Member, &MEMBERS), "a member");
    assert!(rt; are_as_wanted(alloc, Name::Bus, &BUS_NAMES), "a bus name");
}

#[test]
fn names_of_any_length(rt: HostRuntime) {
    let alloc = rt.alloc();
    // 254 bytes with no dot leave no room for one and a second element.
    let long = [b'a'; 300];
    assert!(rt; is_as_wanted(alloc, Name::Interface, &long, Want::Bad(253)));
    assert!(rt; is_as_wanted(alloc, Name::Member, &long, Want::Bad(255)));
    assert!(rt; is_as_wanted(alloc, Name::Member, &long[..255], Want::Read));
}

#[test]
fn paths_are_kept(rt: HostRuntime) -> Result<(), NameFault> {
    let path = ObjectPath::read(rt.alloc(), b"/a/b")?;
    assert!(rt; path.copied()? == path);
    assert!(rt; path.as_slice() == b"/a/b".as_slice());
    Ok(())
}

#[test]
fn interfaces_are_kept(rt: HostRuntime) -> Result<(), NameFault> {
    let interface = Interface::read(rt.alloc(), b"a.b")?;
    assert!(rt; interface.copied()? == interface);
    assert!(rt; interface.as_slice() == b"a.b".as_slice());
    Ok(())
}

#[test]
fn members_are_kept(rt: HostRuntime) -> Result<(), NameFault> {
    let member = Member::read(rt.alloc(), b"a")?;
    assert!(rt; member.copied()? == member);
    assert!(rt; member.as_slice() == b"a".as_slice());
    Ok(())
}

#[test]
fn bus_names_are_kept(rt: HostRuntime) -> Result<(), NameFault> {
    let name = BusName::read(rt.alloc(), b":1.7")?;
    assert!(rt; name.copied()? == name);
    assert!(rt; name.as_slice() == b":1.7".as_slice());
    Ok(())
}

// As sd_bus_path_encode(3) writes them.
const LABELS: [(&[u8], &[u8]); 7] = [
    (b"", b"_"),
    (b"seat-1", b"seat_2d1"),
    (b"1", b"_31"),
    (b"c1", b"c1"),
    (b"a1", b"a1"),
    (b"_", b"_5f"),
    (b"\xc3\xa9", b"_c3_a9"),
];

const NO_LABELS: [&[u8]; 8] = [b"", b"a_2", b"_2D", b"_61", b"a_31", b"a-b", b"1a", b"__"];

/// Whether the label is the escape of the text.
fn is_escape(alloc: Global, text: &[u8], label: &[u8]) -> Result<bool, NoMemory> {
    Ok(escape_label(alloc, text)?.as_slice() == label)
}

/// Whether the label is read as the text.
fn is_unescaped(alloc: Global, label: &[u8], text: &[u8]) -> Result<bool, NameFault> {
    Ok(unescape_label(alloc, label)?.as_slice() == text)
}

/// Whether this is no label.
fn is_no_label(alloc: Global, text: &[u8]) -> bool {
    matches!(unescape_label(alloc, text), Err(NameFault::BadLabel))
}

fn are_labels(alloc: Global, labels: &[(&[u8], &[u8])]) -> Result<bool, NameFault> {
    for row in labels {
        let (text, label) = *row;
        if !is_escape(alloc, text, label)? || !is_unescaped(alloc, label, text)? {
            return Ok(false);
        }
    }
    Ok(true)
}

fn are_no_labels(alloc: Global, texts: &[&[u8]]) -> bool {
    texts.iter().all(|text| is_no_label(alloc, text))
}

#[test]
fn labels_are_escapes(rt: HostRuntime) -> Result<(), NameFault> {
    assert!(rt; are_labels(rt.alloc(), &LABELS)?);
    assert!(rt; are_no_labels(rt.alloc(), &NO_LABELS));
    Ok(())
}

const SIGNATURES: [&[u8]; 10] = [
    b"",
    b"ybnqiuxtdsogh",
    b"v",
    b"aai",
    b"(i(ii))",
    b"a(yv)",
    b"a{sv}",
    b"a{oa{sa{sv}}}",
    b"a(susso)",
    b"(y)(b)ay",
];

const NO_SIGNATURES: [(&[u8], NameFault); 16] = [
    (b"a", NameFault::BadSignature(1)),
    (b"()", NameFault::BadSignature(1)),
    (b"(", NameFault::BadSignature(1)),
    (b")", NameFault::BadSignature(0)),
    (b"r", NameFault::BadSignature(0)),
    (b"e", NameFault::BadSignature(0)),
    (b"{sv}", NameFault::BadSignature(0)),
    (b"({sv})", NameFault::BadSignature(1)),
    (b"a{vs}", NameFault::BadSignature(2)),
    (b"a{(i)s}", NameFault::BadSignature(2)),
    (b"a{s}", NameFault::BadSignature(3)),
    (b"a{svs}", NameFault::BadSignature(4)),
    (b"a{sv", NameFault::BadSignature(4)),
    (b"aa{sv)", NameFault::BadSignature(5)),
    (b"(ii", NameFault::BadSignature(3)),
    (b"iz", NameFault::BadSignature(1)),
];

/// Whether the signature is written so.
fn is_written(alloc: Global, signature: &Signature, text: &[u8]) -> Result<bool, NoMemory> {
    Ok(signature.text(alloc)?.as_slice() == text)
}

/// Whether the signature and a copy of it are written so.
fn are_written(alloc: Global, signature: &Signature, text: &[u8]) -> Result<bool, NoMemory> {
    Ok(is_written(alloc, signature, text)? && is_written(alloc, &signature.copied(alloc)?, text)?)
}

/// Whether the text is read, and written again.
fn is_signature(alloc: Global, text: &[u8]) -> Result<bool, NameFault> {
    Ok(are_written(alloc, &Signature::read(alloc, text)?, text)?)
}

/// Whether the text is refused so.
fn is_refused(alloc: Global, text: &[u8], fault: NameFault) -> bool {
    matches!(Signature::read(alloc, text), Err(found) if found == fault)
}

fn are_signatures(alloc: Global, texts: &[&[u8]]) -> Result<bool, NameFault> {
    for text in texts {
        if !is_signature(alloc, text)? {
            return Ok(false);
        }
    }
    Ok(true)
}

fn are_refused(alloc: Global, rows: &[(&[u8], NameFault)]) -> bool {
    rows.iter().all(|row| is_refused(alloc, row.0, row.1))
}

#[test]
fn signatures_of_the_specification(rt: HostRuntime) -> Result<(), NameFault> {
    assert!(rt; are_signatures(rt.alloc(), &SIGNATURES)?);
    assert!(rt; are_refused(rt.alloc(), &NO_SIGNATURES));
    Ok(())
}

#[test]
fn signatures_are_bounded(rt: HostRuntime) {
    let alloc = rt.alloc();
    let arrays = [b'a'; 33];
    assert!(rt; is_refused(alloc, &arrays, NameFault::TooDeep(32)));
    assert!(rt; is_refused(alloc, &arrays[..32], NameFault::BadSignature(32)));
    let structs = [b'('; 256];
    assert!(rt; is_refused(alloc, &structs, NameFault::BadSignature(255)));
    assert!(rt; is_refused(alloc, &structs[..255], NameFault::TooDeep(32)));
    let most = [b'y'; 255];
    assert!(rt; Signature::read(alloc, &most).is_ok());
}
