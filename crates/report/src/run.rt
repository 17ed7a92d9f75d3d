//! From the text of a design to its answers.
ghost use Rattle.std.specs.Prelude.{◌≡◌, ◌<◌, [], length, get_or, IfOk, string_bytes, MatchResult, OnOk, slice_index_or};
ghost use Rattle.layout.specs.Layouts.{blank, rank};
ghost use Rattle.table.specs.Records.{no_record};
ghost use Rattle.design.specs.declared.fault.Fault.TheVariants as fault;
ghost use Rattle.design.specs.declared.read.Design.{Design};
ghost use Rattle.design.specs.Designs.{DesignSaid};
ghost use Rattle.report.specs.Runs.{records as records_of, layouts_of, EachAxis, Matched, rule_fault, RuleTold, Told};

use crate::facts::put_facts;
use crate::report::put_report;
use design::ask::{Ask, Entries, Question};
use design::fault::{Broken, Expected, Fault, What};
use design::layout_line::LayoutLine;
use design::read::{Design, read_design};
use layout::catalogue::Catalogue;
use layout::fault::{LayoutFault, Rule};
use layout::layout_ref::LayoutRef;
use std::alloc::{AllocError, Global};
use table::record::LayoutRecord;
use table::table::Table;

/// How a design is answered, as the command line says it.
#[derive(Clone, Copy, PartialEq, Eq)]
pub enum Form {
    /// In plain words, with pictures.
    Report,
    /// One fact a line, for comparing.
    Facts,
}

fn check_entries<'a, C: Catalogue>(
    c: &C,
    line: usize,
    layout: usize,
    entries: Entries,
) -> Result<(), Fault<'a>>
    ensures { MatchResult result (λ _. EachAxis (C.layouts c.now) layout entries) (λ _. EachAxis (C.layouts c.now) layout entries → ⊥) }
{
    let Ok(layout) = LayoutRef::new(c, layout) else {
        return Ok(());
    };
    let rank = layout.rank();
    if entries.count == rank {
        Ok(())
    } else {
        Err(Fault::Line {
            line,
            what: What::Entries(entries.count),
            expected: Expected::Entries(rank),
        })
    }
}

/// Whether a question gives an entry for each axis, where its layout exists.
fn check_question<'a, C: Catalogue>(c: &C, question: Question<'a>) -> Result<(), Fault<'a>>
    ensures { MatchResult result (λ _. Matched (C.layouts c.now) question.entry.ask) (λ _. Matched (C.layouts c.now) question.entry.ask → ⊥) }
{
    match question.ask {
        Ask::Lookup {
            layout,
            entries,
            ..
        } => check_entries(c, question.line, layout, entries),
        Ask::Place { .. } | Ask::From { .. } | Ask::Trans { .. } => Ok(()),
    }
}

fn put_answers<'a, C: Catalogue>(
    out: &mut String,
    c: &C,
    design: &Design<'a>,
    form: Form,
) -> Result<(), Fault<'a>>
    ensures { OnOk result (Told form (C.layouts c.now) design.now.questions.items (string_bytes out.old) (string_bytes out.new)) }
{
    let questions = design.questions.as_slice();
    for question in questions {
        check_question(c, *question)?;
    }
    match form {
        Form::Report => put_report(out, c, design.layouts.as_slice(), questions)?,
        Form::Facts => put_facts(out, c, questions)?,
    }
    Ok(())
}

/// The records of the layouts of a design.
fn collect_records(heap: Global, lines: &[LayoutLine]) -> Result<Vec<LayoutRecord>, AllocError>
    ensures { IfOk result (λ v. v.items ≡ records_of lines.now) }
{
    lines.iter().map(|line| line.layout).collect(heap)
}

/// The fault of a layout that breaks a rule, with its line.
fn broken_layout<'a>(lines: &[LayoutLine], layout: usize, rule: Rule) -> Fault<'a>
    requires { layout < length lines.now }
    ensures { result ≡ rule_fault lines.now layout rule }
{
    let found = lines[layout];
    Fault::Layout {
        line: found.line,
        layout,
        broken: Broken {
            kind: found.layout.kind,
            rule,
        },
    }
}

/// The catalogue of the layouts of a design, unless one breaks a rule: the first is told.
fn table_of<'a, 'x>(
    lines: &[LayoutLine],
    records: &'x [LayoutRecord],
    pool: &'x [u16],
) -> Result<Table<'x>, Fault<'a>>
    requires { records.now ≡ records_of lines.now }
    ensures { MatchResult result (λ t. (t.records.now ≡ records.now) × (t.pool.now ≡ pool.now)) (RuleTold lines.now pool.now) }
{
    match Table::try_new(records, pool) {
        Ok(table) => Ok(table),
        Err(LayoutFault::Faulty { record, rule }) => Err(broken_layout(lines, record, rule)),
        Err(LayoutFault::Unknown) => unreachable(),
    }
}

fn answers<'a, 'x>(
    heap: Global,
    design: &'x Design<'a>,
    records: &'x [LayoutRecord],
    form: Form,
) -> Result<String, Fault<'a>>
    requires { records.now ≡ records_of design.now.layouts.items }
    ensures { IfOk result (λ s. Told form (layouts_of design.now) design.now.questions.items [] (string_bytes s)) }
{
    let table = table_of(design.layouts.as_slice(), records, design.pool.as_slice())?;
    let mut out = String::new(heap);
    put_answers(&mut out, &table, design, form)?;
    Ok(out)
}

/// The answers to the questions of a design.
pub fn answer_design<'a>(heap: Global, text: &'a str, form: Form) -> Result<String, Fault<'a>>
    ensures { IfOk result (λ s. (d : Design) × DesignSaid text.now d × Told form (layouts_of d) d.questions.items [] (string_bytes s)) }
{
    let design = read_design(heap, text)?;
    let records = collect_records(heap, design.layouts.as_slice())?;
    answers(heap, &design, records.as_slice(), form)
}
