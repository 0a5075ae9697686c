//! The words that choose a subcommand of `upc`, ask for help, or are refused.

use std::alloc::{AllocError, Global};
use std::test::Fail;
use text_command_line::{Choice, Stop, choose};

fn chosen_by(alloc: Global, line: &str) -> Result<Result<Choice, Stop>, AllocError> {
    let mut words = Vec::new(alloc);
    for word in line.split_whitespace() {
        let word = String::from_str(alloc, word)?;
        words.push(word)?;
    }
    Ok(choose(alloc, words))
}

#[test]
fn a_subcommand_is_chosen_by_its_name_and_eval_by_no_word(rt: HostRuntime) -> Result<(), Fail> {
    for (line, choice) in [
        ("", Choice::Eval),
        ("eval", Choice::Eval),
        ("check", Choice::Check),
        ("run", Choice::Run),
        ("ports", Choice::Ports),
    ] {
        let answer = chosen_by(rt.alloc(), line)?;
        assert_eq!(rt; answer.ok(), Some(choice), "{line}");
    }
    Ok(())
}

#[test]
fn other_and_further_words_are_refused(rt: HostRuntime) -> Result<(), Fail> {
    for line in [
        "bogus",
        "eval extra",
        "check eval",
        "run run",
        "ports 4",
        "Check",
        "eval --version",
    ] {
        let answer = chosen_by(rt.alloc(), line)?;
        assert!(rt; matches!(&answer, Err(Stop::Words(_))), "{line}");
    }
    Ok(())
}

#[test]
fn help_names_the_subcommands(rt: HostRuntime) -> Result<(), Fail> {
    for line in ["--help", "-h", "help"] {
        let answer = chosen_by(rt.alloc(), line)?;
        let Err(Stop::Help(text)) = &answer else {
            return Err(Fail::new("this is no help"));
        };
        assert!(rt; text.as_str().contains("\n  check "), "{line}");
        assert!(rt; text.as_str().contains("\n  eval "), "{line}");
        assert!(rt; text.as_str().contains("\n  run "), "{line}");
        assert!(rt; text.as_str().contains("\n  ports "), "{line}");
    }
    Ok(())
}

#[test]
fn the_version_comes_after_the_name(rt: HostRuntime) -> Result<(), Fail> {
    for line in ["--version", "-V"] {
        let answer = chosen_by(rt.alloc(), line)?;
        let Err(Stop::Help(text)) = &answer else {
            return Err(Fail::new("this is no version"));
        };
        assert!(rt; text.as_str() == "upc 2.0\n", "{line}");
    }
    Ok(())
}
