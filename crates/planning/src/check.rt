//! The refusals of a block by itself, in their order.
ghost use Rattle.std.specs.Prelude.{◌≡◌, List, IfOk, Ok, slice_index_or, Float};
ghost use Rattle.layout.specs.Layouts.{AllValid, blank};
ghost use Rattle.translation.specs.Laws.{LawfulIn};
ghost use Rattle.overlap.specs.Clashes.{first_clash as first_clash_of};
ghost use Rattle.translation.specs.Outcome.{translated};
ghost use Rattle.records.specs.declared.counts.Counts.{Counts};
ghost use Rattle.records.specs.declared.record.BinaryRecord.{BinaryRecord};
ghost use Rattle.records.specs.declared.record.TensorRecord.{TensorRecord};
ghost use Rattle.records.specs.Memory.{holding};
ghost use Rattle.planning.specs.Blocks.{letters_checked, stored_checked, named_checked, names_checked, block_checked};

use crate::call::BlockCall;
use crate::fault::BlockFault;
use expression::formed::letters_sound;
use expression::letters::{are_distinct, meant};
use expression::node::{Letters, Node};
use layout::catalogue::Catalogue;
use names::check::expression_fault;
use names::scope::{Block, Scope};
use names::variable::{VariableRecord, is_constant};
use overlap::blocks::EarlierBlocks;
use overlap::clash::first_clash;
use records::record::TensorRecord;
use translation::kinds::{Translation, TranslationTo};
use translation::route::Route;

/// At most four block letters, each of a to z, and none twice.
fn check_letters(letters: Letters) -> Result<(), BlockFault>
    ensures { result ≡ letters_checked letters }
{
    if letters_sound(letters) & are_distinct(meant(&letters)) {
        Ok(())
    } else {
        Err(BlockFault::Letters)
    }
}

/// No earlier block of the tensor has stored at a destination.
fn check_stored(clash: Option<usize>) -> Result<(), BlockFault>
    ensures { result ≡ stored_checked clash }
{
    clash.map_or(Ok(()), |place| Err(BlockFault::Stored { place }))
}

/// A named block has its destinations one after another.
fn check_named(named: bool, to: TranslationTo) -> Result<(), BlockFault>
    ensures { result ≡ named_checked named to }
{
    if named && to == TranslationTo::Listed {
        Err(BlockFault::Listed)
    } else {
        Ok(())
    }
}

/// The tensor that a block stores into: its number and its record.
#[derive(Clone, Copy)]
pub struct Target {
    pub number: usize,
    pub tensor: TensorRecord,
}

/// What the last call left of blocks and variables.
#[derive(Drop)]
pub struct Recorded<'a> {
    pub earlier: EarlierBlocks<'a>,
    pub variables: &'a [VariableRecord],
}

/// The expression may stand in a block of a tensor.
fn check_expression<C: Catalogue>(
    c: &C,
    variables: &[VariableRecord],
    target: TensorRecord,
    call: BlockCall,
    nodes: &[Node],
) -> Result<(), BlockFault>
    ensures { result ≡ names_checked (C.layouts c.now) variables.now target call nodes.now }
{
    let constant = is_constant(target.class);
    let scope = Scope {
        catalogue: c,
        variables,
        opened: Some(target.variable),
    };
    let block = Block {
        letters: call.letters,
        source: call.source,
    };
    expression_fault(&scope, block, constant, nodes)?;
    Ok(())
}

/// The first via place of an accepted translation whose destination an earlier block of the tensor
/// with a number has stored at.
fn find_clash<C: Catalogue>(
    c: &C,
    number: usize,
    earlier: &EarlierBlocks,
    route: Route,
    translation: Translation,
) -> Option<usize>
    requires accepted { translated (C.layouts c.now) route.source route.via route.start route.target ≡ Ok translation }
    requires lawful { LawfulIn (C.layouts c.now) route.source route.via route.start route.target translation }
    ensures { result ≡ first_clash_of earlier.now.blocks earlier.now.indices number (slice_index_or (C.layouts c.now) route.via blank) route.start (slice_index_or (C.layouts c.now) route.target blank) }
{
    match route.in_catalogue(c) {
        Ok(block) => first_clash(
            earlier,
            number,
            translation,
            &block.via,
            block.start,
            &block.target,
        ),
        Err(_) => unreachable(),
    }
}

/// The translation of a block of a tensor, where nothing refuses the block by itself.
pub fn check_block<C: Catalogue>(
    c: &C,
    target: Target,
    recorded: &Recorded,
    call: BlockCall,
    nodes: &[Node],
) -> Result<Translation, BlockFault>
    ensures is { (n : Counts) (ts : List TensorRecord) (ks : List BinaryRecord) (cs : List Float) → result ≡ block_checked (C.layouts c.now) (holding n ts recorded.now.earlier.blocks recorded.now.variables.now ks cs recorded.now.earlier.indices) target.number target.tensor call nodes.now }
    ensures lawful { IfOk result (LawfulIn (C.layouts c.now) call.source call.via call.start target.tensor.layout) }
    ensures valid { AllValid (C.layouts c.now) }
{
    // The count says that every layout is valid.
    let _ = c.count();
    check_letters(call.letters)?;
    let route = call.route(target.tensor.layout);
    let translation = Translation::new(c, route)?;
    check_stored(find_clash(c, target.number, &recorded.earlier, route, translation))?;
    check_named(call.named, translation.to)?;
    check_expression(c, recorded.variables, target.tensor, call, nodes)?;
    Ok(translation)
}
