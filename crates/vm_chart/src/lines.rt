//! The lines of a chart.

ghost use Rattle.std.specs.Prelude.{◌≡◌, ◌<◌, ◌≤◌, ◌*◌, ◌++◌, [], ◌∷◌, IfOk, OnOk, codes, cond, decimal, fold, length, map, max, nat_eq, slice_get, unwrap_or};
ghost use Rattle.std.specs.List.{flat_map};
ghost use Rattle.machine_semantics.specs.Image.{Script as Lines};
ghost use Rattle.run_chart.specs.Chart.{by_rank, chart_in, declared_rank_of, filled, line, of_rank, process_of_run, scale, summary};
ghost use Rattle.run_chart.specs.Spans.{first_tick};
ghost use Rattle.run_chart.specs.Columns.{AreFew};
ghost use Rattle.vm_chart.specs.Lengths.{AreLengths};
ghost use Rattle.run_chart.specs.Traces.{AreDrawn};

use crate::put::{put_blanks, put_filled, put_number, put_summary};
use image_bytes::ImageBytes;
use out_of_memory::OutOfMemory;
use run_chart::{Columns, Trace, first_tick};
use std::alloc::Global;
use syntax_tree::{Name, Text};

/// How long the labels are, and the texts behind them.
#[derive(Clone, Copy)]
struct Lengths {
    labels: usize,
    texts: usize,
}

/// The length of the longest of names and of `tick`.
fn label_len(names: &[Name]) -> usize
    ensures { result ≡ fold max 4 (map length names.now) }
{
    let mut len = 4;
    for name in names {
        len = len.max(name.as_bytes().len());
    }
    len
}

/// Puts a mark of the scale at its place.
fn put_mark(text: &mut Text, columns: &Columns, mark: usize) -> Result<(), OutOfMemory>
    requires few { AreFew columns.now }
    requires mark { 10 * mark < columns.now.count }
    ensures { OnOk result (text.new ≡
        filled (10 * mark) text.old ++ decimal (first_tick columns.now (10 * mark))) }
{
    let place = 10 * mark;
    let blanks = place.saturating_sub(text.as_bytes().len());
    put_blanks(text, blanks)?;
    put_number(text, first_tick(columns, place))
}

/// The scale.
fn scale(alloc: Global, columns: &Columns) -> Result<Text, OutOfMemory>
    requires { AreFew columns.now }
    ensures { IfOk result (λ text. text ≡ scale columns.now) }
{
    let mut text = Text::new(alloc);
    for mark in 0..columns.count.div_ceil(10) {
        put_mark(&mut text, columns, mark)?;
    }
    Ok(text)
}

/// Puts a label and a text, each filled to its length.
fn put_front(
    text: &mut Text,
    lengths: Lengths,
    label: &[u8],
    body: &[u8],
) -> Result<(), OutOfMemory>
    ensures { OnOk result (text.new ≡ text.old ++ (filled lengths.labels label.now ++
        (codes "  " ++ (filled lengths.texts body.now ++ codes "  ")))) }
{
    put_filled(text, label, lengths.labels)?;
    text.extend(b"  ")?;
    put_filled(text, body, lengths.texts)?;
    text.extend(b"  ")
}

/// Puts the line of the scale.
fn put_scale(
    text: &mut Text,
    lengths: Lengths,
    columns: &Columns,
    scale: &[u8],
) -> Result<(), OutOfMemory>
    ensures { OnOk result (text.new ≡ text.old ++ line lengths.labels lengths.texts
        (codes "tick") scale.now (codes "column " ++ decimal columns.now.width)) }
{
    put_front(text, lengths, b"tick", scale)?;
    text.extend(b"column ")?;
    put_number(text, columns.width)?;
    text.extend(b"\n")
}

/// The name of a process, or no bytes where it has none.
fn name_of(names: &[Name], number: usize) -> &[u8]
    ensures { result.now ≡ unwrap_or (slice_get names.now number) [] }
{
    match names.get(number) {
        Some(name) => name.as_bytes(),
        None => b"",
    }
}

/// Puts the line of a process.
fn put_trace(
    text: &mut Text,
    lengths: Lengths,
    name: &[u8],
    trace: &Trace,
    bound: u32,
) -> Result<(), OutOfMemory>
    ensures { OnOk result (text.new ≡ text.old ++ line lengths.labels lengths.texts
        name.now trace.now.row (summary trace.now.ended trace.now.longest bound)) }
{
    put_front(text, lengths, name, trace.row.as_bytes())?;
    put_summary(text, trace.ended, trace.longest, bound)?;
    text.extend(b"\n")
}

/// Puts the line of a process of an image.
fn put_process(
    text: &mut Text,
    lengths: Lengths,
    image: &ImageBytes,
    columns: &Columns,
    traces: &[Trace],
    number: u16,
) -> Result<(), OutOfMemory>
    ghost script: { Lines }
    requires lengths { AreLengths image.now.names columns.now lengths }
    requires drawn { AreDrawn image.now.image script columns.now traces.now }
    requires number { number < length image.now.image.processes }
    ensures { OnOk result (text.new ≡ text.old ++
        process_of_run image.now script columns.now number) }
{
    let at = usize::from(number);
    let name = name_of(image.names().processes.as_slice(), at);
    put_trace(
        text,
        lengths,
        name,
        &traces[at],
        image.process(number).bound,
    )
}

/// Puts the line of a process if it has the rank.
fn put_if(
    text: &mut Text,
    lengths: Lengths,
    image: &ImageBytes,
    columns: &Columns,
    traces: &[Trace],
    rank: usize,
    number: u16,
) -> Result<(), OutOfMemory>
    ghost script: { Lines }
    requires lengths { AreLengths image.now.names columns.now lengths }
    requires drawn { AreDrawn image.now.image script columns.now traces.now }
    requires number { number < length image.now.image.processes }
    ensures { OnOk result (text.new ≡ text.old ++
        flat_map (process_of_run image.now script columns.now)
        (cond (nat_eq (declared_rank_of image.now.image number) rank) (number ∷ []) [])) }
{
    if usize::from(image.process(number).rank) != rank {
        return Ok(());
    }
    put_process(text, lengths, image, columns, traces, number)
}

/// Puts the lines of the processes of a rank.
fn put_rank(
    text: &mut Text,
    lengths: Lengths,
    image: &ImageBytes,
    columns: &Columns,
    traces: &[Trace],
    rank: usize,
) -> Result<(), OutOfMemory>
    ghost script: { Lines }
    requires lengths { AreLengths image.now.names columns.now lengths }
    requires drawn { AreDrawn image.now.image script columns.now traces.now }
    ensures { OnOk result (text.new ≡ text.old ++
        flat_map (process_of_run image.now script columns.now)
        (of_rank image.now.image rank)) }
{
    for number in 0..image.processes() {
        put_if(text, lengths, image, columns, traces, rank, number)?;
    }
    Ok(())
}

/// Puts the lines of all processes in the order of ranks.
fn put_ranks(
    text: &mut Text,
    lengths: Lengths,
    image: &ImageBytes,
    columns: &Columns,
    traces: &[Trace],
) -> Result<(), OutOfMemory>
    ghost script: { Lines }
    requires lengths { AreLengths image.now.names columns.now lengths }
    requires drawn { AreDrawn image.now.image script columns.now traces.now }
    requires few { length image.now.image.processes ≤ 64 }
    ensures { OnOk result (text.new ≡ text.old ++
        flat_map (process_of_run image.now script columns.now)
        (by_rank image.now.image)) }
{
    for rank in 1..usize::from(image.processes()) + 1 {
        put_rank(text, lengths, image, columns, traces, rank)?;
    }
    Ok(())
}

/// The chart of the processes of an image in these columns, all of which are drawn. An error says
/// that memory is short.
pub(crate) fn text_of(
    alloc: Global,
    image: &ImageBytes,
    columns: &Columns,
    traces: &[Trace],
) -> Result<Text, OutOfMemory>
    ghost script: { Lines }
    requires columns { AreFew columns.now }
    requires drawn { AreDrawn image.now.image script columns.now traces.now }
    requires few { length image.now.image.processes ≤ 64 }
    ensures { IfOk result (λ text. text ≡ chart_in image.now script columns.now) }
{
    let scale = scale(alloc, columns)?;
    let lengths = Lengths {
        labels: label_len(image.names().processes.as_slice()),
        texts: columns.count.max(scale.as_bytes().len()),
    };
    let mut text = Text::new(alloc);
    put_scale(&mut text, lengths, columns, scale.as_bytes())?;
    put_ranks(&mut text, lengths, image, columns, traces)?;
    Ok(text)
}
