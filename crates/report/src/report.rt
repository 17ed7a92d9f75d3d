//! A report in plain words.
use crate::answer::{Answer, Found, lookup_answer, place_answer};
use crate::block::asked_route;
use crate::picture::put_picture_of;
use crate::text::{first, put_joined, put_refused};
use crate::words::{put_from_words, put_trans_words};
use design::ask::{Ask, Entries, Question};
use design::layout_line::LayoutLine;
use layout::catalogue::Catalogue;
use layout::shape::Shape;
use std::alloc::AllocError;

fn put_shape(out: &mut String, shape: Shape) -> Result<(), AllocError> {
    if shape.rank == 0 {
        write!(out, "a scalar")
    } else {
        put_joined(out, first(&shape.lengths, shape.rank), " x ")
    }
}

fn put_layout<C: Catalogue>(
    out: &mut String,
    c: &C,
    number: usize,
    line: usize,
    shape: Shape,
) -> Result<(), AllocError> {
    let kind = shape.kind;
    write!(out, "layout {number} (line {line}): {kind}, ")?;
    put_shape(out, shape)?;
    match shape.count {
        1 => writeln!(out, ", 1 place")?,
        count => writeln!(out, ", {count} places")?,
    }
    put_picture_of(out, c, number)
}

fn put_index(out: &mut String, index: &[i64]) -> Result<(), AllocError> {
    write!(out, "(")?;
    put_joined(out, index, ", ")?;
    write!(out, ")")
}

fn put_entries(out: &mut String, entries: Entries) -> Result<(), AllocError> {
    put_index(out, first(&entries.index, entries.count))
}

fn put_answer(out: &mut String, layout: usize, answer: Answer) -> Result<(), AllocError> {
    write!(out, ": ")?;
    match answer {
        Ok(Some(Found::Number(n))) => write!(out, "place {n}"),
        Ok(Some(Found::Place { rank, index })) => put_index(out, first(&index, rank)),
        Ok(None) => write!(out, "no place"),
        Err(fault) => {
            put_refused(out, fault.report())?;
            write!(out, "there is no layout {layout}")
        }
    }
}

fn put_asked<C: Catalogue>(out: &mut String, c: &C, ask: Ask) -> Result<(), AllocError> {
    match ask {
        Ask::Lookup {
            how,
            layout,
            entries,
        } => {
            write!(out, "{how} lookup of ")?;
            put_entries(out, entries)?;
            write!(out, " in layout {layout}")?;
            put_answer(out, layout, lookup_answer(c, how, layout, entries.index))
        }
        Ask::Place { layout, number } => {
            write!(out, "place {number} of layout {layout}")?;
            put_answer(out, layout, place_answer(c, layout, number))
        }
        Ask::From { source, via } => {
            write!(out, "from layout {source} to layout {via}: ")?;
            put_from_words(out, c, source, via)
        }
        Ask::Trans {
            source,
            via,
            target,
            start,
        } => {
            write!(out, "from layout {source} by way of layout {via} to ")?;
            put_entries(out, start)?;
            write!(out, " in layout {target}: ")?;
            put_trans_words(out, c, asked_route(source, via, start, target))
        }
    }
}

fn put_question<C: Catalogue>(
    out: &mut String,
    c: &C,
    question: Question,
) -> Result<(), AllocError> {
    let line = question.line;
    write!(out, "line {line}: ")?;
    put_asked(out, c, question.ask)?;
    writeln!(out)
}

/// Writes each layout with its line and a picture, and then each question with its answer.
pub fn put_report<C: Catalogue>(
    out: &mut String,
    c: &C,
    lines: &[LayoutLine],
    questions: &[Question],
) -> Result<(), AllocError> {
    for (number, line) in lines.iter().enumerate() {
        if let Ok(shape) = c.shape(number) {
            put_layout(out, c, number, line.line, shape)?;
        }
    }
    for question in questions {
        put_question(out, c, *question)?;
    }
    Ok(())
}
