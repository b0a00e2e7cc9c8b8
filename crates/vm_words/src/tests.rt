use super::*;
use ram_block::NoMemory;
use std::alloc::Global;
use std::test::Fail;

// The words of a line, which stand between single spaces.
fn words_of(alloc: Global, line: &str) -> Result<Vec<String>, NoMemory> {
    let mut words = Vec::new(alloc);
    for word in line.split(' ') {
        words.push(String::from_str(alloc, word)?)?;
    }
    Ok(words)
}

// What is wrong with words, if anything.
fn fault_of(alloc: Global, words: &[String]) -> Result<Option<(u32, UsageKind)>, NoMemory> {
    match line_of(alloc, words) {
        Ok(_) => Ok(None),
        Err(WordsFault::Usage { index, kind }) => Ok(Some((index, kind))),
        Err(WordsFault::NoMemory) => Err(NoMemory),
    }
}

// The same of a line.
fn line_fault(alloc: Global, line: &str) -> Result<Option<(u32, UsageKind)>, NoMemory> {
    let words = words_of(alloc, line)?;
    fault_of(alloc, &words)
}

// A line of each command with all of its keys, each number at its greatest, and how many words it has.
fn full_lines() -> [(&'static str, u32); 10] {
    [
        (
            "save image=a out=b vcpus=8 blocks=8 pages=2048 stop=1000000 run=1000000 mode=threads seed=18446744073709551615 turns=s7 serial=x relay=64",
            13,
        ),
        ("restore in=a run=1000000 mode=lazy", 4),
        ("check in=a", 2),
        ("asm image=a out=b", 3),
        ("workload out=b seed=18446744073709551615", 3),
        ("peek in=a at=67108863 len=1 blocks=8 pages=2048", 6),
        ("layer in=a out=b run=1000000", 4),
        ("join in=a image=b out=c", 4),
        (
            "record image=a out=b vcpus=8 blocks=8 pages=2048 run=1000000 serial=x",
            8,
        ),
        (
            "replay image=a in=b vcpus=8 blocks=8 pages=2048 serial=x",
            7,
        ),
    ]
}

#[test]
fn the_first_wrong_word_is_named(rt: HostRuntime) -> Result<(), Fail> {
    assert_eq!(rt; fault_of(rt.alloc(), &[])?, Some((0, UsageKind::NoCommand)));
    for (line, fault) in [
        ("save image=a out=b pages=0", Some((3, UsageKind::Value))),
        ("save image=a", Some((2, UsageKind::Missing))),
        ("save image=a image=b out=c", Some((2, UsageKind::Twice))),
        ("stave", Some((0, UsageKind::Command))),
        ("check in=a", None),
        ("", Some((0, UsageKind::Command))),
        ("Save", Some((0, UsageKind::Command))),
        ("check ", Some((1, UsageKind::NoEquals))),
        ("check in", Some((1, UsageKind::NoEquals))),
        ("check =a", Some((1, UsageKind::Key))),
        ("check In=a", Some((1, UsageKind::Key))),
        ("check in= in", Some((1, UsageKind::Value))),
        ("check in=a in= x", Some((2, UsageKind::Twice))),
        ("check in=a=b", None),
    ] {
        assert_eq!(rt; line_fault(rt.alloc(), line)?, fault);
    }
    Ok(())
}

#[test]
fn each_key_stands_once_and_is_its_commands(rt: HostRuntime) -> Result<(), Fail> {
    let alloc = rt.alloc();
    for (line, count) in full_lines() {
        let mut words = words_of(alloc, line)?;
        assert_eq!(rt; fault_of(alloc, &words)?, None);
        for again in line.split(' ').skip(1) {
            words.push(String::from_str(alloc, again)?)?;
            assert_eq!(rt; fault_of(alloc, &words)?, Some((count, UsageKind::Twice)));
            words.pop();
        }
    }
    for line in [
        "save in=a",
        "save at=0",
        "restore out=b",
        "restore seed=0",
        "check run=0",
        "asm in=a",
        "workload image=a",
        "workload vcpus=1",
        "peek run=0",
        "peek vcpus=1",
        "layer image=a",
        "layer mode=lazy",
        "join run=0",
        "record stop=0",
        "record mode=threads",
        "record relay=0",
        "replay run=0",
        "replay out=b",
        "replay turns=s",
    ] {
        assert_eq!(rt; line_fault(alloc, line)?, Some((1, UsageKind::Key)));
    }
    Ok(())
}

#[test]
fn a_required_key_is_missing_behind_the_last_word(rt: HostRuntime) -> Result<(), Fail> {
    for (line, index) in [
        ("save", 1),
        ("save out=b", 2),
        ("save image=a turns=1", 3),
        ("restore run=0 mode=eager", 3),
        ("check", 1),
        ("asm image=a", 2),
        ("asm out=b", 2),
        ("workload seed=0", 2),
        ("peek at=0 len=1", 3),
        ("peek in=a len=1", 3),
        ("peek in=a at=67108863", 3),
        ("layer in=a", 2),
        ("layer out=b run=0", 3),
        ("join image=a out=b", 3),
        ("join in=a out=b", 3),
        ("join in=a image=b", 3),
        ("record image=a", 2),
        ("record out=b", 2),
        ("replay image=a", 2),
        ("replay in=a", 2),
    ] {
        assert_eq!(rt;
            line_fault(rt.alloc(), line)?,
            Some((index, UsageKind::Missing))
        );
    }
    Ok(())
}

#[test]
fn a_value_has_the_form_of_its_key(rt: HostRuntime) -> Result<(), Fail> {
    for line in [
        "save image=",
        "save out=",
        "save vcpus=0",
        "save vcpus=9",
        "save blocks=0",
        "save blocks=9",
        "save pages=0",
        "save pages=2049",
        "save stop=1000001",
        "save run=1000001",
        "save mode=eager",
        "save mode=",
        "save seed=18446744073709551616",
        "save turns=8",
        "save turns=S",
        "save relay=65",
        "restore in=",
        "restore run=1000001",
        "restore mode=threads",
        "check in=",
        "asm image=",
        "asm out=",
        "workload out=",
        "workload seed=x",
        "peek in=",
        "peek at=67108864",
        "peek len=0",
        "peek len=4097",
        "peek blocks=9",
        "peek pages=0",
        "layer in=",
        "layer out=",
        "layer run=-1",
        "join in=",
        "join image=",
        "join out=",
        "record image=",
        "record out=",
        "record vcpus=9",
        "record blocks=0",
        "record pages=2049",
        "record run=1000001",
        "replay image=",
        "replay in=",
        "replay vcpus=0",
        "replay blocks=9",
        "replay pages=0",
        "save seed=",
        "save seed=+1",
        "save seed=1=1",
        "save seed=1x",
        "save seed=000000000000000000001",
        "save seed=99999999999999999999",
    ] {
        assert_eq!(rt; line_fault(rt.alloc(), line)?, Some((1, UsageKind::Value)));
    }
    for line in [
        "workload out=b seed=00000000000000000001",
        "workload out=b seed=18446744073709551615",
        "layer in=a out=b run=0001000000",
        "workload seed=0 out==",
        "save image=a out=b turns=",
    ] {
        assert_eq!(rt; line_fault(rt.alloc(), line)?, None);
    }
    Ok(())
}

#[test]
fn values_go_together(rt: HostRuntime) -> Result<(), Fail> {
    for (line, fault) in [
        ("save image=a out=b turns=1", Some((3, UsageKind::Value))),
        ("save image=a out=b turns=1 vcpus=2", None),
        (
            "save image=a out=b turns=1 blocks=2",
            Some((3, UsageKind::Value)),
        ),
        (
            "save image=a mode=threads turns=1 out=b",
            Some((3, UsageKind::Value)),
        ),
        ("save image=a out=b relay=1", Some((3, UsageKind::Value))),
        (
            "save image=a out=b relay=1 mode=sliced",
            Some((3, UsageKind::Value)),
        ),
        ("save image=a out=b relay=1 mode=threads", None),
        ("save image=a out=b relay=0", None),
        (
            "save relay=1 image=a out=b turns=1",
            Some((1, UsageKind::Value)),
        ),
        (
            "save image=a turns=1 out=b relay=1",
            Some((2, UsageKind::Value)),
        ),
        ("peek in=a at=1044480 len=4096", None),
        ("peek in=a at=1048575 len=1", None),
        ("peek in=a at=1048575 len=2", Some((3, UsageKind::Value))),
        ("peek len=2 in=a at=1048575", Some((1, UsageKind::Value))),
        ("peek in=a at=1048575 len=2 blocks=2", None),
        (
            "peek in=a at=4096 len=1 pages=1",
            Some((3, UsageKind::Value)),
        ),
    ] {
        assert_eq!(rt; line_fault(rt.alloc(), line)?, fault);
    }
    Ok(())
}

#[test]
fn a_line_gives_its_job_with_defaults(rt: HostRuntime) -> Result<(), Fail> {
    let alloc = rt.alloc();
    for (line, text) in [
        (
            "save image=a out=b vcpus=8 turns=s07",
            "Ok(Save { shape: Shape { vcpus: 8, blocks: 1, pages: 256 }, stop: 0, run: 0, mode: Sliced, turns: Turns { turns: [Saver, Cpu(0), Cpu(7)] }, input: Input { bytes: [] }, relay: 0 })",
        ),
        (
            "save relay=64 mode=threads turns=s run=2 out=b stop=3 pages=4 blocks=5 serial=hi seed=6 image=a",
            "Ok(Save { shape: Shape { vcpus: 1, blocks: 5, pages: 4 }, stop: 3, run: 2, mode: Threads, turns: Turns { turns: [] }, input: Input { bytes: [104, 105] }, relay: 64 })",
        ),
        ("restore in=a", "Ok(Restore { run: 0, lazy: false })"),
        (
            "restore mode=lazy run=7 in=a",
            "Ok(Restore { run: 7, lazy: true })",
        ),
        ("check in=a", "Ok(CheckFile)"),
        ("asm out=b image=a", "Ok(Assemble)"),
        ("workload out=b", "Ok(Workload { seed: 0 })"),
        ("workload seed=9 out=b", "Ok(Workload { seed: 9 })"),
        (
            "peek in=a at=1 len=2",
            "Ok(Peek { shape: Shape { vcpus: 1, blocks: 1, pages: 256 }, at: 1, len: 2 })",
        ),
        ("layer in=a out=b", "Ok(Layer { run: 0 })"),
        ("join in=a image=b out=c", "Ok(Join)"),
        (
            "record image=a out=b serial=h",
            "Ok(Record { shape: Shape { vcpus: 1, blocks: 1, pages: 256 }, run: 0, input: Input { bytes: [104] } })",
        ),
        (
            "replay image=a in=b vcpus=2 blocks=3 pages=4",
            "Ok(Replay { shape: Shape { vcpus: 2, blocks: 3, pages: 4 }, input: Input { bytes: [] } })",
        ),
    ] {
        let words = words_of(alloc, line)?;
        let job = line_of(alloc, &words);
        assert_eq!(rt; format!(in alloc; "{job:?}")?.as_str(), text);
    }
    Ok(())
}

#[test]
fn turns_are_drawn_from_the_seed(rt: HostRuntime) -> Result<(), Fail> {
    let alloc = rt.alloc();
    assert_eq!(rt; next_draw(0), 1442695040888963407);
    assert_eq!(rt; next_draw(0) >> 33, 167951807);
    // 167951807 is 1 modulo 2, 2 modulo 3 and 2 modulo 5.
    for (vcpus, first) in [(1, TurnOf::Saver), (2, TurnOf::Saver), (4, TurnOf::Cpu(2))] {
        let turns = turns_of(alloc, 0, vcpus, 1)?;
        assert_eq!(rt; turns.count(), 1);
        assert_eq!(rt; turns.get(0), Some(first));
        assert_eq!(rt; turns.get(1), None);
    }
    let words = words_of(alloc, "save image=a out=b")?;
    let Ok(Job::Save { turns, input, .. }) = line_of(alloc, &words) else {
        return Err(Fail::from("the line is no save"));
    };
    assert_eq!(rt; turns.count(), 4096);
    assert_eq!(rt; turns.get(0), Some(TurnOf::Saver));
    assert_eq!(rt; input.bytes(), [].as_slice());
    Ok(())
}

#[test]
fn long_lines_and_long_values(rt: HostRuntime) -> Result<(), Fail> {
    let alloc = rt.alloc();
    for (word, fault) in [
        ("x", Some((1, UsageKind::NoEquals))),
        ("image=a", Some((2, UsageKind::Twice))),
    ] {
        let mut words = words_of(alloc, "save")?;
        for _ in 1..5000 {
            words.push(String::from_str(alloc, word)?)?;
        }
        assert_eq!(rt; fault_of(alloc, &words)?, fault);
    }
    for (key, character, count, fault) in [
        ("serial=", 'x', 4096, None),
        ("serial=", 'x', 4097, Some((3, UsageKind::Value))),
        ("serial=", 'é', 2048, None),
        ("serial=", 'é', 2049, Some((3, UsageKind::Value))),
        ("turns=", 's', 4096, None),
        ("turns=", 's', 4097, Some((3, UsageKind::Value))),
    ] {
        let mut words = words_of(alloc, "save image=a out=b")?;
        let mut word = String::from_str(alloc, key)?;
        for _ in 0..count {
            word.push(character)?;
        }
        words.push(word)?;
        assert_eq!(rt; fault_of(alloc, &words)?, fault);
    }
    Ok(())
}

#[test]
fn a_value_follows_the_first_word_of_its_key(rt: HostRuntime) -> Result<(), Fail> {
    let words = words_of(
        rt.alloc(),
        "out=0 save image image=a=b imageimage=c image=d out=",
    )?;
    for (key, value) in [
        ("image", Some("a=b")),
        ("out", Some("0")),
        ("save", None),
        ("", None),
        ("imag", None),
    ] {
        assert_eq!(rt; value_of(&words, key), value);
    }
    Ok(())
}
