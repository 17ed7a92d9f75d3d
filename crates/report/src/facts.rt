//! Facts for comparing: one a line.
ghost use Rattle.std.specs.Prelude.{◌≡◌, ◌<◌, ◌++◌, length, string_bytes, OnOk};
ghost use Rattle.std.specs.List.{flat_map};
ghost use Rattle.report.specs.Answers.{layout_fact_of, asked_fact, question_fact};
ghost use Rattle.report.specs.Answers.{facts as facts_of};
ghost use Rattle.report.specs.Facts.{after_blank, before_blank, layout_fact, answer_fact};
ghost use Rattle.design.specs.Texts.{words};

use crate::answer::{Answer, Found, lookup_answer, place_answer};
use crate::block::asked_route;
use crate::text::{first, put_joined, put_refusal};
use crate::translations::{put_from, put_trans};
use design::ask::{Ask, Question};
use design::words::Words;
use layout::catalogue::Catalogue;
use layout::layout_ref::LayoutRef;
use layout::shape::Shape;
use std::alloc::AllocError;

// Writes lengths, each after a blank.
fn put_lengths(out: &mut String, lengths: &[usize]) -> Result<(), AllocError>
    ensures { OnOk result (string_bytes out.new ≡ string_bytes out.old ++ flat_map after_blank lengths.now) }
{
    for length in lengths {
        write!(out, " {length}")?;
    }
    Ok(())
}

fn put_shape(out: &mut String, layout: usize, shape: Shape) -> Result<(), AllocError>
    ensures { OnOk result (string_bytes out.new ≡ string_bytes out.old ++ layout_fact layout shape) }
{
    let Shape {
        kind,
        rank,
        lengths,
        count,
    } = shape;
    write!(out, "layout {layout} {kind} shape")?;
    put_lengths(out, first(&lengths, rank))?;
    writeln!(out, " count {count}")
}

fn put_layout<C: Catalogue>(out: &mut String, c: &C, layout: usize) -> Result<(), AllocError>
    requires { layout < length (C.layouts c.now) }
    ensures { OnOk result (string_bytes out.new ≡ string_bytes out.old ++ layout_fact_of (C.layouts c.now) layout) }
{
    match LayoutRef::new(c, layout) {
        Ok(known) => put_shape(out, layout, known.shape()),
        Err(_) => unreachable(),
    }
}

fn put_answer(out: &mut String, answer: Answer) -> Result<(), AllocError>
    ensures { OnOk result (string_bytes out.new ≡ string_bytes out.old ++ answer_fact answer) }
{
    match answer {
        Ok(Some(Found::Number(n))) => write!(out, "{n}"),
        Ok(Some(Found::Place { rank, index })) => put_joined(out, first(&index, rank), " "),
        Ok(None) => write!(out, "none"),
        Err(fault) => put_refusal(out, fault.report()),
    }
}

fn put_asked<C: Catalogue>(out: &mut String, c: &C, ask: Ask) -> Result<(), AllocError>
    ensures { OnOk result (string_bytes out.new ≡ string_bytes out.old ++ asked_fact (C.layouts c.now) ask) }
{
    match ask {
        Ask::Lookup {
            how,
            layout,
            entries,
        } => put_answer(out, lookup_answer(c, how, layout, entries.index)),
        Ask::Place { layout, number } => put_answer(out, place_answer(c, layout, number)),
        Ask::From { source, via } => put_from(out, c, source, via),
        Ask::Trans {
            source,
            via,
            target,
            start,
        } => put_trans(out, c, asked_route(source, via, start, target)),
    }
}

// Writes the words of a question, each before a blank.
fn put_words(out: &mut String, question: Question) -> Result<(), AllocError>
    ensures { OnOk result (string_bytes out.new ≡ string_bytes out.old ++ flat_map before_blank (words question.entry.text.now)) }
{
    let mut words = Words::new(question.line, question.text);
    while let Some(word) = words.next_word() {
        write!(out, "{word} ")?;
    }
    Ok(())
}

fn put_question<C: Catalogue>(out: &mut String, c: &C, question: Question) -> Result<(), AllocError>
    ensures { OnOk result (string_bytes out.new ≡ string_bytes out.old ++ question_fact (C.layouts c.now) question.entry) }
{
    put_words(out, question)?;
    write!(out, "-> ")?;
    put_asked(out, c, question.ask)?;
    writeln!(out)
}

/// Writes a fact for each layout, and then one for each question.
#[tactic(auto, using(crate::proofs::Texts::more_counted))]
pub fn put_facts<C: Catalogue>(
    out: &mut String,
    c: &C,
    questions: &[Question],
) -> Result<(), AllocError>
    ensures { OnOk result (string_bytes out.new ≡ string_bytes out.old ++ facts_of (C.layouts c.now) questions.now) }
{
    for layout in 0..c.count() {
        put_layout(out, c, layout)?;
    }
    for question in questions {
        put_question(out, c, *question)?;
    }
    Ok(())
}
