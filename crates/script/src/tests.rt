//! Good lines, and text that is none.

use crate::commands::Command;
use crate::lines::Line;
use crate::numbers::number;
use std::test::Fail;

#[test]
fn each_letter_names_its_command(rt: HostRuntime) {
    let lines = [
        ("n 7", Command::New, 7),
        ("c 0", Command::Increment, 0),
        ("w 007", Command::Downgrade, 7),
        ("m 4294967295", Command::MakeMut, u32::MAX),
        ("d 00000000004294967295", Command::Decrement, u32::MAX),
        ("u 10", Command::Upgrade, 10),
        ("t 123456789", Command::TryUnwrap, 123456789),
        ("r 90", Command::ReleaseWeak, 90),
    ];
    for (text, command, number) in lines {
        assert_eq!(rt; text.parse::<Line>().ok(), Some(Line { command, number }));
    }
}

#[test]
fn letters_name_back(rt: HostRuntime) -> Result<(), Fail> {
    for letter in "ncwmdutr".chars() {
        let command = Command::try_from(letter)?;
        assert_eq!(rt; char::from(command), letter);
    }
    assert_eq!(rt; Command::try_from('x').ok(), None);
    Ok(())
}

#[test]
fn numbers_fit_32_bits(rt: HostRuntime) {
    assert_eq!(rt; number("007"), Some(7));
    assert_eq!(rt; number("4294967295"), Some(u32::MAX));
    assert_eq!(rt; number("4294967296"), None);
    assert_eq!(rt; number("42949672950"), None);
    assert_eq!(rt; number("+1"), None);
}

#[test]
fn malformed_lines_are_none(rt: HostRuntime) {
    let lines = [
        "",
        "n",
        "n ",
        "n1",
        "n  1",
        " n 1",
        "n 1 ",
        "n 1\r",
        "n +1",
        "n -1",
        "n 4294967296",
        "x 1",
        "N 1",
        "nn 1",
        "é 1",
        "n é",
        "n 1a",
    ];
    for text in lines {
        assert_eq!(rt; text.parse::<Line>().ok(), None);
    }
}
