ghost use Rattle.std.specs.Prelude.{◌<◌};

use super::*;
use std::alloc::Global;
use std::io;
use std::test::Fail;

// As long as a small job, and the answer to one.
const INPUT: [u8; 93] = [b'7'; 93];

const LINE: [u8; 8] = *b"A[0] 42\n";

// What answers each job with its own bytes, and 0.
struct Echo;

impl laws::Answering<u8> for Echo {
    ghost use Rattle.std.specs.Prelude.{◌≡◌};

    ghost answers = { λ words job reply. reply ≡ record { exit = 0; text = job } };
}

// Reads the input in pieces, where one call fails; 0 is none.
fn read_input(
    alloc: Global,
    piece: usize,
    failing: u64,
    limit: usize,
) -> Result<Result<Vec<u8>, ReadError>, Fail>
    requires { 0 < piece }
{
    let bytes = INPUT.to_vec(alloc)?;
    let fails = [failing].to_vec(alloc)?;
    let mut source = MemSource::new(bytes, piece, fails);
    Ok(read_all(alloc, &mut source, limit))
}

// Writes the line in pieces, where one call fails, and gives what the sink took.
fn write_line(
    alloc: Global,
    room: usize,
    piece: usize,
    failing: u64,
) -> Result<(Result<(), Failed>, Vec<u8>), Fail>
    requires { 0 < piece }
{
    let fails = [failing].to_vec(alloc)?;
    let mut sink = MemSink::new(alloc, room, piece, fails)?;
    let result = write_all(&mut sink, &LINE);
    Ok((result, sink.written().to_vec(alloc)?))
}

#[test]
fn reads_all_or_says_why(rt: HostRuntime) -> Result<(), Fail> {
    let table = [
        (10, 93, None),
        (10, usize::MAX, None),
        (93, 1000, None),
        (1000, 93, None),
        (1, 92, Some(ReadError::TooLong)),
        (1000, 92, Some(ReadError::TooLong)),
        (10, 0, Some(ReadError::TooLong)),
    ];
    for (piece, limit, want) in table {
        assert!(rt; piece > 0);
        let result = read_input(rt.alloc(), piece, 0, limit)?;
        match result {
            Ok(bytes) => {
                assert_eq!(rt; want, None, "{piece} {limit}");
                assert_eq!(rt; bytes.as_slice(), INPUT.as_slice());
            }
            Err(error) => assert_eq!(rt; Some(error), want, "{piece} {limit}"),
        }
    }
    Ok(())
}

#[test]
fn a_failure_at_each_read_is_told(rt: HostRuntime) -> Result<(), Fail> {
    // Ten calls give bytes, and the eleventh finds the end.
    for failing in 1..=12 {
        let result = read_input(rt.alloc(), 10, failing, 1000)?;
        match result {
            Ok(bytes) => {
                assert_eq!(rt; failing, 12);
                assert_eq!(rt; bytes.as_slice(), INPUT.as_slice());
            }
            Err(error) => {
                assert_eq!(rt; error, ReadError::Failed);
                assert!(rt; failing <= 11);
            }
        }
    }
    Ok(())
}

#[test]
fn a_failing_read_takes_nothing(rt: HostRuntime) -> Result<(), Fail> {
    let alloc = rt.alloc();
    let mut source = MemSource::new(INPUT.to_vec(alloc)?, 100, [1].to_vec(alloc)?);
    assert_eq!(rt;
        read_all(alloc, &mut source, 93).err(),
        Some(ReadError::Failed)
    );
    let bytes = read_all(alloc, &mut source, 93)?;
    assert_eq!(rt; bytes.as_slice(), INPUT.as_slice());
    Ok(())
}

#[test]
fn writes_all_or_a_front(rt: HostRuntime) -> Result<(), Fail> {
    let table: [(usize, usize, u64, usize); 8] = [
        (8, 1, 0, 8),
        (100, 100, 0, 8),
        (8, 3, 4, 8),
        (100, 5, 2, 5),
        (5, 1, 0, 5),
        (5, 100, 0, 5),
        (0, 1, 0, 0),
        (7, 8, 0, 7),
    ];
    for (room, piece, failing, size) in table {
        assert!(rt; piece > 0 && size <= 8);
        let (result, written) = write_line(rt.alloc(), room, piece, failing)?;
        assert_eq!(rt; result.is_ok(), size == 8, "{room} {piece} {failing}");
        assert_eq!(rt;
            written.as_slice(),
            &LINE[..size],
            "{room} {piece} {failing}"
        );
    }
    Ok(())
}

#[test]
fn a_failure_at_each_write_is_told(rt: HostRuntime) -> Result<(), Fail> {
    for failing in 1..=8 {
        let (result, written) = write_line(rt.alloc(), 100, 1, failing)?;
        assert!(rt; result.is_err(), "{failing}");
        assert_eq!(rt; written.as_slice(), &LINE[..failing as usize - 1]);
    }
    Ok(())
}

// A test's standard input is empty.
#[test]
fn standard_input_is_read_to_its_end(rt: HostRuntime) -> Result<(), Fail> {
    let alloc = rt.alloc();
    let mut source = StdSource::new(rt.reader());
    let bytes = read_all(alloc, &mut source, 1000)?;
    assert!(rt; bytes.is_empty());

    let mut source = StdSource::new(INPUT.as_slice());
    let bytes = read_all(alloc, &mut source, 93)?;
    assert_eq!(rt; bytes.as_slice(), INPUT.as_slice());
    Ok(())
}

#[test]
fn standard_output_takes_a_line(rt: HostRuntime) -> Result<(), Fail> {
    let mut sink = StdSink::new(io::writer(&rt));
    write_all(&mut sink, &LINE)?;

    // A writer with no room takes nothing of the piece.
    let mut room = [0; 5];
    let mut sink = StdSink::new(room.as_mut_slice());
    assert_eq!(rt; write_all(&mut sink, &LINE), Err(Failed));
    Ok(())
}

#[test]
fn errors_are_told_in_words(rt: HostRuntime) -> Result<(), Fail> {
    let alloc = rt.alloc();
    let told = format!(in alloc; "{Failed}, {}, {}", ReadError::TooLong, ReadError::NoMemory)?;
    assert_eq!(rt; told.as_str(), "the device failed, too long, out of memory");
    laws::constant_count_never_rose();
    laws::ends_without_faults::<u8, Echo>();
    Ok(())
}
