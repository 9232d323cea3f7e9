//! Words, read from left to right.

ghost use Rattle.std.specs.Prelude.{◌≡◌, ◌≢◌, ◌≤◌, MatchBool, IfOk, IfErr, MatchOption, Some, map, slice_get, length, codes};
ghost use Rattle.std.specs.String.{string_bytes};
ghost use Rattle.g_line.specs.Forms.{HasLine, option_word};
ghost use Rattle.g_line.specs.Usage.{IsOnlyLine, IsRefusal};
ghost use Rattle.g_line.specs.Reading.{OnUsage, IsNoSetting, IsSettingOf, AreRead, IsNoLimit, IsLimitOf, IsLimitAt, IsNoLimitAt, AreSet, IsMain, IsNoMain};

use crate::forms::{Line, LineRefused, Setting};
use g_lists::List;
use g_types::{Bytes, Name, is_name};
use std::alloc::{AllocError, Global};

/// How many iterations of loops a run may begin at most.
const MOST_ITERATIONS: u32 = 4_000_000;

/// How many it may begin where the words don't say.
const USUAL_ITERATIONS: u32 = 100_000;

/// The setting of the word of this number, cut at its first `=`.
fn read_setting(alloc: Global, number: u64, word: &str) -> Result<Option<Setting>, AllocError>
    ensures { IfOk result (λ read. MatchOption read (IsNoSetting word.now) (IsSettingOf number word.now)) }
{
    let Some((name, text)) = word.split_once('=') else {
        return Ok(None);
    };
    if !is_name(name.as_bytes()) {
        return Ok(None);
    }
    let name = Name::from_slice(alloc, name.as_bytes())?;
    let text = Bytes::from_slice(alloc, text.as_bytes())?;
    Ok(Some(Setting {
        word: number,
        name,
        text,
    }))
}

/// Adds the settings that the words from a place on are, up to the first word that is none; answers the
/// place of that word, or how many words there are.
fn read_settings(
    alloc: Global,
    words: &[String],
    first: usize,
    settings: &mut Vec<Setting>,
) -> Result<usize, AllocError>
    requires { first ≤ length words.now }
    ensures { IfOk result (AreRead (map string_bytes words.now) first settings.old.items settings.new.items) }
{
    for at in first..words.len() {
        let Some(setting) = read_setting(alloc, at as u64 + 1, words[at].as_str())? else {
            return Ok(at);
        };
        settings.push(setting)?;
    }
    Ok(words.len())
}

/// The number of iterations that a word is.
fn limit_of(word: &str) -> Option<u32>
    ensures { MatchOption result (IsNoLimit word.now) (IsLimitOf word.now) }
{
    let first = word.as_bytes().first()?;
    if *first == b'+' {
        return None;
    }
    if word.len() > 10 {
        return None;
    }
    let Ok(limit) = word.parse::<u32>() else {
        return None;
    };
    if limit < 1 {
        return None;
    }
    if limit > MOST_ITERATIONS {
        return None;
    }
    Some(limit)
}

/// The number of iterations that the word at a place is.
fn read_limit(words: &[String], at: usize) -> Result<u32, LineRefused>
    requires { at ≤ length words.now }
    ensures read { IfOk result (IsLimitAt (map string_bytes words.now) at) }
    ensures refused { IfErr result (OnUsage (IsNoLimitAt (map string_bytes words.now) at)) }
{
    let Some(word) = words.get(at) else {
        return Err(LineRefused::Usage(at as u64 + 1));
    };
    let Some(limit) = limit_of(word.as_str()) else {
        return Err(LineRefused::Usage(at as u64 + 1));
    };
    Ok(limit)
}

/// The MAIN of a command.
fn read_main(alloc: Global, words: &[String]) -> Result<Name, LineRefused>
    ensures read { IfOk result (IsMain (map string_bytes words.now)) }
    ensures refused { IfErr result (OnUsage (IsNoMain (map string_bytes words.now))) }
{
    let Some(main) = words.get(1) else {
        return Err(LineRefused::Usage(2));
    };
    if !is_name(main.as_bytes()) {
        return Err(LineRefused::Usage(2));
    }
    Ok(Name::from_slice(alloc, main.as_bytes())?)
}

/// `run MAIN`, settings up to a place with `--iterations`, a number, and further settings.
fn run_limited(
    alloc: Global,
    words: &[String],
    main: Name,
    settings: Vec<Setting>,
    at: usize,
) -> Result<Line, LineRefused>
    requires { AreSet (map string_bytes words.now) main settings.items at }
    ensures has { IfOk result (HasLine (map string_bytes words.now)) }
    ensures only { IfOk result (IsOnlyLine (map string_bytes words.now)) }
    ensures refused { IfErr result (IsRefusal (map string_bytes words.now)) }
{
    let limit = read_limit(words, at + 1)?;
    let mut settings = settings;
    let end = read_settings(alloc, words, at + 2, &mut settings)?;
    if end < words.len() {
        return Err(LineRefused::Usage(end as u64 + 1));
    }
    Ok(Line::Run {
        main,
        settings: List::from_vec(settings),
        limit,
    })
}

/// The word at a place.
fn word_at(words: &[String], at: usize) -> Option<&str>
    ensures { MatchOption result (length words.now ≤ at) (λ word. slice_get (map string_bytes words.now) at ≡ Some word.now) }
{
    let word = words.get(at)?;
    Some(word.as_str())
}

/// Whether the word stands before a number of iterations.
fn is_option(word: &str) -> bool
    ensures { MatchBool result (word.now ≡ option_word) (word.now ≢ option_word) }
{
    word.as_bytes() == b"--iterations".as_slice()
}

/// `run MAIN` and arguments.
fn run(alloc: Global, words: &[String]) -> Result<Line, LineRefused>
    requires { slice_get (map string_bytes words.now) 0 ≡ Some (codes "run") }
    ensures has { IfOk result (HasLine (map string_bytes words.now)) }
    ensures only { IfOk result (IsOnlyLine (map string_bytes words.now)) }
    ensures refused { IfErr result (IsRefusal (map string_bytes words.now)) }
{
    let main = read_main(alloc, words)?;
    let mut settings = Vec::new(alloc);
    let end = read_settings(alloc, words, 2, &mut settings)?;
    let Some(word) = word_at(words, end) else {
        return Ok(Line::Run {
            main,
            settings: List::from_vec(settings),
            limit: USUAL_ITERATIONS,
        });
    };
    if !is_option(word) {
        return Err(LineRefused::Usage(end as u64 + 1));
    }
    run_limited(alloc, words, main, settings, end)
}

/// `check MAIN`, which takes no further word.
fn check(alloc: Global, words: &[String]) -> Result<Line, LineRefused>
    requires { slice_get (map string_bytes words.now) 0 ≡ Some (codes "check") }
    ensures has { IfOk result (HasLine (map string_bytes words.now)) }
    ensures only { IfOk result (IsOnlyLine (map string_bytes words.now)) }
    ensures refused { IfErr result (IsRefusal (map string_bytes words.now)) }
{
    let main = read_main(alloc, words)?;
    if words.len() > 2 {
        return Err(LineRefused::Usage(3));
    }
    Ok(Line::Check { main })
}

/// `print`, which takes no further word.
fn print(words: &[String]) -> Result<Line, LineRefused>
    requires { slice_get (map string_bytes words.now) 0 ≡ Some (codes "print") }
    ensures has { IfOk result (HasLine (map string_bytes words.now)) }
    ensures only { IfOk result (IsOnlyLine (map string_bytes words.now)) }
    ensures refused { IfErr result (IsRefusal (map string_bytes words.now)) }
{
    if words.len() > 1 {
        return Err(LineRefused::Usage(2));
    }
    Ok(Line::Print)
}

/// What the words ask for. A setting is cut at its first `=`. Refused where the words are no line's,
/// at the first word that no line has there, and where memory is wanting.
pub fn line(alloc: Global, words: &Vec<String>) -> Result<Line, LineRefused>
    ensures has { IfOk result (HasLine (map string_bytes words.now.items)) }
    ensures only { IfOk result (IsOnlyLine (map string_bytes words.now.items)) }
    ensures refused { IfErr result (IsRefusal (map string_bytes words.now.items)) }
{
    let words = words.as_slice();
    let Some(command) = words.first() else {
        return Err(LineRefused::Usage(1));
    };
    match command.as_str() {
        "run" => run(alloc, words),
        "check" => check(alloc, words),
        "print" => print(words),
        _ => Err(LineRefused::Usage(1)),
    }
}

#[cfg(test)]
mod tests {
    use super::*;
    use std::test::Fail;

    fn words_of(alloc: Global, text: &str) -> Result<Vec<String>, AllocError> {
        let mut words = Vec::new(alloc);
        for word in text.split_whitespace() {
            words.push(String::from_str(alloc, word)?)?;
        }
        Ok(words)
    }

    #[test]
    fn each_refusal_has_its_word(rt: HostRuntime) -> Result<(), Fail> {
        let alloc = rt.alloc();
        for (text, first_wrong) in [
            ("", 1),
            ("fly", 1),
            ("prin", 1),
            ("print x", 2),
            ("print print", 2),
            ("run", 2),
            ("check", 2),
            ("check 2nd x", 2),
            ("check Main a=1", 3),
            ("run 2nd", 2),
            ("run Main a=1 b", 4),
            ("run Main --workers 33", 3),
            ("run Main a=1 =2", 4),
            ("run Main --iterations", 4),
            ("run Main a=1 --iterations", 5),
            ("run Main --iterations 0", 4),
            ("run Main --iterations 4000001", 4),
            ("run Main --iterations 00000000001", 4),
            ("run Main --iterations +1", 4),
            ("run Main --iterations 1x a=1", 4),
            ("run Main --iterations 1 --iterations 1", 5),
            ("run Main --iterations 1 a=1 b", 6),
            ("run Main --iterations=1", 3),
            ("check Main --iterations 1", 3),
        ] {
            let words = words_of(alloc, text)?;
            match line(alloc, &words) {
                Err(LineRefused::Usage(at)) => assert_eq!(rt; at, first_wrong, "at {text}"),
                _ => assert!(rt; false, "at {text}"),
            }
        }
        Ok(())
    }

    #[test]
    fn check_has_its_main(rt: HostRuntime) -> Result<(), Fail> {
        let alloc = rt.alloc();
        let words = words_of(alloc, "check Main")?;
        let Line::Check { main } = &line(alloc, &words)? else {
            assert!(rt; false);
            return Ok(());
        };
        assert_eq!(rt; main.as_slice(), b"Main".as_slice());
        Ok(())
    }

    #[test]
    fn print_is_a_line(rt: HostRuntime) -> Result<(), Fail> {
        let alloc = rt.alloc();
        let words = words_of(alloc, "print")?;
        let is_print = matches!(&line(alloc, &words)?, Line::Print);
        assert!(rt; is_print);
        Ok(())
    }

    #[test]
    fn a_setting_ends_at_its_first_equals_sign(rt: HostRuntime) -> Result<(), Fail> {
        let alloc = rt.alloc();
        let words = words_of(alloc, "run Main a=1 b= a=x=y")?;
        let Line::Run {
            main,
            settings,
            limit,
        } = &line(alloc, &words)?
        else {
            assert!(rt; false);
            return Ok(());
        };
        assert_eq!(rt; *limit, 100_000);
        assert_eq!(rt; main.as_slice(), b"Main".as_slice());
        let wanted: [(u64, &[u8], &[u8]); 3] = [(3, b"a", b"1"), (4, b"b", b""), (5, b"a", b"x=y")];
        assert_eq!(rt; settings.len(), wanted.len());
        for (setting, (word, name, text)) in settings.as_slice().iter().zip(wanted) {
            assert_eq!(rt; setting.word, word);
            assert_eq!(rt; setting.name.as_slice(), name);
            assert_eq!(rt; setting.text.as_slice(), text);
        }
        Ok(())
    }

    #[test]
    fn a_limit_may_stand_among_settings(rt: HostRuntime) -> Result<(), Fail> {
        let alloc = rt.alloc();
        for (text, wanted) in [
            ("run Main a=1 --iterations 0000001000 b=2", 1_000),
            ("run Main --iterations 4000000 a=1 b=2", 4_000_000),
            ("run Main a=1 b=2 --iterations 1", 1),
        ] {
            let words = words_of(alloc, text)?;
            let Line::Run {
                settings,
                limit,
                ..
            } = &line(alloc, &words)?
            else {
                assert!(rt; false);
                return Ok(());
            };
            assert_eq!(rt; *limit, wanted);
            assert_eq!(rt; settings.len(), 2);
        }
        Ok(())
    }
}
