//! The rows of the table of commands.

ghost use Rattle.std.specs.Prelude.{◌≡◌, ◌≤◌, ◌<◌, ◌^◌, map, option_map, string_bytes, IfSome};
ghost use Rattle.command_words.specs.Calls.{over_of};
ghost use Rattle.command_words.specs.Words.{number_up_to, overhead_of, last_overhead, go_row, check_row, compile_row, json_row, slack_row, print_row, run_row, migrate_row, asm_row, dis_row, watch_row, replay_row, edf_row, why_row, fit_row, chart_row, table_row, stop_of, image_row_of, plain_row_of, row_of, call_of};

use crate::stop::Breakpoint;
use crate::words_command::Command;
use text_fields::unsigned;

/// The greatest overhead, in ticks.
const GREATEST_OVERHEAD: u64 = 1_000;

/// The greatest tick at which a run can stop.
const GREATEST_TICK: u64 = 1_000_000_000;

/// The greatest address of an instruction.
const GREATEST_ADDRESS: u64 = 65_534;

/// The overhead that the word spells.
fn overhead(word: &String) -> Option<u16>
    ensures is { result ≡ overhead_of (string_bytes word.now) }
    ensures few { IfSome result (λ over. over ≤ 1000) }
{
    match unsigned(word.as_bytes(), GREATEST_OVERHEAD) {
        Some(overhead) => Some(overhead as u16),
        None => None,
    }
}

/// The overhead that the last words of a row give: 0 where there are none.
fn last_overhead(words: &[String]) -> Option<u16>
    ensures is { result ≡ last_overhead (map string_bytes words.now) }
    ensures few { IfSome result (λ over. over ≤ 1000) }
{
    match words {
        [] => Some(0),
        [word] => overhead(word),
        _ => None,
    }
}

/// What `go` is with these words behind it.
fn go(words: &[String]) -> Option<Command<'_>>
    ensures row { option_map call_of result ≡ go_row (map string_bytes words.now) }
    ensures over { IfSome result (λ c. over_of (call_of c) ≤ 1000) }
{
    let [program, image, script, rest @ ..] = words else {
        return None;
    };
    let Some(overhead) = last_overhead(rest) else {
        return None;
    };
    Some(Command::Go {
        program: program.as_str(),
        image: image.as_str(),
        script: script.as_str(),
        overhead,
    })
}

/// What `check` is with these words behind it.
fn check(words: &[String]) -> Option<Command<'_>>
    ensures row { option_map call_of result ≡ check_row (map string_bytes words.now) }
    ensures over { IfSome result (λ c. over_of (call_of c) ≤ 1000) }
{
    let [program, rest @ ..] = words else {
        return None;
    };
    let Some(overhead) = last_overhead(rest) else {
        return None;
    };
    Some(Command::Check {
        program: program.as_str(),
        overhead,
    })
}

/// What `compile` is with these words behind it.
fn compile(words: &[String]) -> Option<Command<'_>>
    ensures row { option_map call_of result ≡ compile_row (map string_bytes words.now) }
    ensures over { IfSome result (λ c. over_of (call_of c) ≤ 1000) }
{
    let [program, image, rest @ ..] = words else {
        return None;
    };
    let Some(overhead) = last_overhead(rest) else {
        return None;
    };
    Some(Command::Compile {
        program: program.as_str(),
        image: image.as_str(),
        overhead,
    })
}

/// What `json` is with these words behind it.
fn json(words: &[String]) -> Option<Command<'_>>
    ensures row { option_map call_of result ≡ json_row (map string_bytes words.now) }
    ensures over { IfSome result (λ c. over_of (call_of c) ≤ 1000) }
{
    let [program, rest @ ..] = words else {
        return None;
    };
    let Some(overhead) = last_overhead(rest) else {
        return None;
    };
    Some(Command::Json {
        program: program.as_str(),
        overhead,
    })
}

/// What `slack` is with these words behind it.
fn slack(words: &[String]) -> Option<Command<'_>>
    ensures row { option_map call_of result ≡ slack_row (map string_bytes words.now) }
    ensures over { IfSome result (λ c. over_of (call_of c) ≤ 1000) }
{
    let [program, rest @ ..] = words else {
        return None;
    };
    let Some(overhead) = last_overhead(rest) else {
        return None;
    };
    Some(Command::Slack {
        program: program.as_str(),
        overhead,
    })
}

/// What `print` is with these words behind it.
fn print(words: &[String]) -> Option<Command<'_>>
    ensures row { option_map call_of result ≡ print_row (map string_bytes words.now) }
    ensures over { IfSome result (λ c. over_of (call_of c) ≤ 1000) }
{
    let [program] = words else {
        return None;
    };
    Some(Command::Print {
        program: program.as_str(),
    })
}

/// What `run` is with these words behind it.
fn run(words: &[String]) -> Option<Command<'_>>
    ensures row { option_map call_of result ≡ run_row (map string_bytes words.now) }
    ensures over { IfSome result (λ c. over_of (call_of c) ≤ 1000) }
{
    let [image, script] = words else {
        return None;
    };
    Some(Command::Run {
        image: image.as_str(),
        script: script.as_str(),
    })
}

/// What `migrate` is with these words behind it.
fn migrate(words: &[String]) -> Option<Command<'_>>
    ensures row { option_map call_of result ≡ migrate_row (map string_bytes words.now) }
    ensures over { IfSome result (λ c. over_of (call_of c) ≤ 1000) }
{
    let [image, target] = words else {
        return None;
    };
    Some(Command::Migrate {
        image: image.as_str(),
        target: target.as_str(),
    })
}

/// What `asm` is with these words behind it.
fn asm(words: &[String]) -> Option<Command<'_>>
    ensures row { option_map call_of result ≡ asm_row (map string_bytes words.now) }
    ensures over { IfSome result (λ c. over_of (call_of c) ≤ 1000) }
{
    let [text, image] = words else {
        return None;
    };
    Some(Command::Asm {
        text: text.as_str(),
        image: image.as_str(),
    })
}

/// What `dis` is with these words behind it.
fn dis(words: &[String]) -> Option<Command<'_>>
    ensures row { option_map call_of result ≡ dis_row (map string_bytes words.now) }
    ensures over { IfSome result (λ c. over_of (call_of c) ≤ 1000) }
{
    let [image, text] = words else {
        return None;
    };
    Some(Command::Dis {
        image: image.as_str(),
        text: text.as_str(),
    })
}

/// The number that the word spells, if it is at most `most`.
fn numeral(word: &[u8], most: u64) -> Option<u64>
    requires { most < 2 ^ 32 }
    ensures is { result ≡ number_up_to most word.now }
    ensures few { IfSome result (λ number. number ≤ most) }
{
    match unsigned(word, most) {
        Some(number) => Some(number),
        None => None,
    }
}

/// Before which tick the word says to stop.
fn before_tick(word: &[u8]) -> Option<Breakpoint>
    ensures { result ≡ option_map Breakpoint.Tick (number_up_to 1000000000 word.now) }
{
    match numeral(word, GREATEST_TICK) {
        Some(tick) => Some(Breakpoint::Tick(tick)),
        None => None,
    }
}

/// After whose effect the word says to stop.
fn after_effect(word: &[u8]) -> Option<Breakpoint>
    ensures { result ≡ option_map Breakpoint.Effect (number_up_to 65534 word.now) }
{
    match numeral(word, GREATEST_ADDRESS) {
        Some(address) => Some(Breakpoint::Effect(address as u32)),
        None => None,
    }
}

/// Where the word says to stop.
fn stop(word: &[u8]) -> Option<Breakpoint>
    ensures { result ≡ stop_of word.now }
{
    match word {
        [] => None,
        [first, rest @ ..] => if *first == b'@' {
            after_effect(rest)
        } else {
            before_tick(word)
        },
    }
}

/// What `watch` is with these words behind it.
fn watch(words: &[String]) -> Option<Command<'_>>
    ensures row { option_map call_of result ≡ watch_row (map string_bytes words.now) }
    ensures over { IfSome result (λ c. over_of (call_of c) ≤ 1000) }
{
    let [image, script, word] = words else {
        return None;
    };
    let Some(stop) = stop(word.as_bytes()) else {
        return None;
    };
    Some(Command::Watch {
        image: image.as_str(),
        script: script.as_str(),
        stop,
    })
}

/// What `replay` is with these words behind it.
fn replay(words: &[String]) -> Option<Command<'_>>
    ensures row { option_map call_of result ≡ replay_row (map string_bytes words.now) }
    ensures over { IfSome result (λ c. over_of (call_of c) ≤ 1000) }
{
    let [program, script, log] = words else {
        return None;
    };
    Some(Command::Replay {
        program: program.as_str(),
        script: script.as_str(),
        log: log.as_str(),
    })
}

/// What `edf` is with these words behind it.
fn edf(words: &[String]) -> Option<Command<'_>>
    ensures row { option_map call_of result ≡ edf_row (map string_bytes words.now) }
    ensures over { IfSome result (λ c. over_of (call_of c) ≤ 1000) }
{
    let [program, script] = words else {
        return None;
    };
    Some(Command::Edf {
        program: program.as_str(),
        script: script.as_str(),
    })
}

/// What `why` is with these words behind it.
fn why(words: &[String]) -> Option<Command<'_>>
    ensures row { option_map call_of result ≡ why_row (map string_bytes words.now) }
    ensures over { IfSome result (λ c. over_of (call_of c) ≤ 1000) }
{
    let [program, rest @ ..] = words else {
        return None;
    };
    let Some(overhead) = last_overhead(rest) else {
        return None;
    };
    Some(Command::Why {
        program: program.as_str(),
        overhead,
    })
}

/// What `fit` is with these words behind it.
fn fit(words: &[String]) -> Option<Command<'_>>
    ensures row { option_map call_of result ≡ fit_row (map string_bytes words.now) }
    ensures over { IfSome result (λ c. over_of (call_of c) ≤ 1000) }
{
    let [program, rest @ ..] = words else {
        return None;
    };
    let Some(overhead) = last_overhead(rest) else {
        return None;
    };
    Some(Command::Fit {
        program: program.as_str(),
        overhead,
    })
}

/// What `chart` is with these words behind it.
fn chart(words: &[String]) -> Option<Command<'_>>
    ensures row { option_map call_of result ≡ chart_row (map string_bytes words.now) }
    ensures over { IfSome result (λ c. over_of (call_of c) ≤ 1000) }
{
    let [image, script, first, end] = words else {
        return None;
    };
    let Some(first) = numeral(first.as_bytes(), GREATEST_TICK - 1) else {
        return None;
    };
    let Some(end) = numeral(end.as_bytes(), GREATEST_TICK) else {
        return None;
    };
    if first >= end {
        return None;
    }
    Some(Command::Chart {
        image: image.as_str(),
        script: script.as_str(),
        first,
        end,
    })
}

/// What `table` is with these words behind it.
fn table(words: &[String]) -> Option<Command<'_>>
    ensures row { option_map call_of result ≡ table_row (map string_bytes words.now) }
    ensures over { IfSome result (λ c. over_of (call_of c) ≤ 1000) }
{
    let [tasks, program] = words else {
        return None;
    };
    Some(Command::Table {
        tasks: tasks.as_str(),
        program: program.as_str(),
    })
}

/// The row of the word of a command on an image, its text or a task table, if it is one.
fn image_row<'x>(word: &str, rest: &'x [String]) -> Option<Command<'x>>
    ensures row { option_map call_of result ≡ image_row_of word.now (map string_bytes rest.now) }
    ensures over { IfSome result (λ c. over_of (call_of c) ≤ 1000) }
{
    if word == "run" {
        run(rest)
    } else if word == "watch" {
        watch(rest)
    } else if word == "chart" {
        chart(rest)
    } else if word == "migrate" {
        migrate(rest)
    } else if word == "dis" {
        dis(rest)
    } else if word == "asm" {
        asm(rest)
    } else if word == "table" {
        table(rest)
    } else {
        None
    }
}

/// The row of the word of a command on a program that takes no overhead, or of one on an image, if
/// it is one.
fn plain_row<'x>(word: &str, rest: &'x [String]) -> Option<Command<'x>>
    ensures row { option_map call_of result ≡ plain_row_of word.now (map string_bytes rest.now) }
    ensures over { IfSome result (λ c. over_of (call_of c) ≤ 1000) }
{
    if word == "print" {
        print(rest)
    } else if word == "replay" {
        replay(rest)
    } else if word == "edf" {
        edf(rest)
    } else {
        image_row(word, rest)
    }
}

/// The row of the table that the words are in, if any.
pub fn row(words: &[String]) -> Option<Command<'_>>
    ensures row { option_map call_of result ≡ row_of (map string_bytes words.now) }
    ensures over { IfSome result (λ c. over_of (call_of c) ≤ 1000) }
{
    let [word, rest @ ..] = words else {
        return None;
    };
    let word = word.as_str();
    if word == "go" {
        go(rest)
    } else if word == "check" {
        check(rest)
    } else if word == "compile" {
        compile(rest)
    } else if word == "json" {
        json(rest)
    } else if word == "slack" {
        slack(rest)
    } else if word == "why" {
        why(rest)
    } else if word == "fit" {
        fit(rest)
    } else {
        plain_row(word, rest)
    }
}
