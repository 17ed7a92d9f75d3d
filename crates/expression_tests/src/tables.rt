//! Values at all source places, and binary tables.
use crate::reading::{POOL, block, layouts, letters};
use expression::fault::ExpressionFault;
use expression::node::Node;
use expression::root_host::RootHost;
use layout::fault::{Layer, LayoutFault};
use names::binary_table::{TableKey, needs_no_table, to_binary_data_layout};
use names::evaluate::Evaluation;
use names::fault::NamesFault;
use names::permutation::Permutation;
use names::places::evaluate_places;
use names::scope::Scope;
use names::variable::{Class, VariableRecord};
use std::process::Abort;
use std::test::Fail;
use table::table::Table;

// A function of a node at the places of dense 3.
fn at_places(t: &Table, node: Node, code: u8, out: &mut [f64]) -> Result<(), NamesFault> {
    let x = VariableRecord {
        layout: Some(3),
        class: Class::Constant,
        offset: 0,
    };
    let nodes = [node, Node::Call { code, arguments: 1 }];
    let evaluation = Evaluation {
        scope: Scope {
            catalogue: t,
            variables: &[x],
            opened: None,
        },
        constants: &[1.0, 4.0, 9.0],
        host: &RootHost,
    };
    evaluate_places(&evaluation, block(1, b"i---", 3), &nodes, out)
}

fn values(rt: &impl Abort, t: &Table) -> Result<(), Fail> {
    let x = Node::Name {
        variable: 2,
        letters: letters(1, b"i---"),
    };
    let mut out = [-1.0; 4];
    assert!(rt; (at_places(t, x, 10, &mut out) == Ok(())) & (out == [1.0, 2.0, 3.0, -1.0]));
    assert!(rt;
        at_places(t, x, 7, &mut [0.0; 3])
            == Err(NamesFault::Expression(ExpressionFault::NoHostValue { node: 1 }))
    );
    match at_places(t, x, 10, &mut [0.0; 2]) {
        Ok(()) => Err(Fail::new("there was room")),
        Err(fault) => {
            let r = fault.report();
            assert!(rt; r.number == 23 && r.place == 0 && r.layer == Layer::Stage);
            Ok(())
        }
    }
}

// What a table is of for a name with letters in a block ij.
fn key(layout: usize, source: usize, name: &[u8; 4]) -> TableKey {
    TableKey {
        layout,
        source,
        permutation: Permutation::new(2, letters(2, b"ij--"), letters(2, name)),
    }
}

fn binary_tables(rt: &impl Abort, t: &Table) {
    let mut table = [7; 11];
    assert!(rt;
        (to_binary_data_layout(t, &key(0, 1, b"ji--"), &mut table, 1) == Ok(10))
            & (table == [7, 0, -1, -1, -1, -1, 2, 1, -1, -1, 7])
            & (to_binary_data_layout(t, &key(0, 1, b"ji--"), &mut table, 3)
                == Err(NamesFault::NoRoom))
    );
    assert!(rt;
        to_binary_data_layout(t, &key(6, 1, b"ji--"), &mut table, 0)
            == Err(NamesFault::Layout(LayoutFault::Unknown))
    );
    assert!(rt;
        (table == [7, 0, -1, -1, -1, -1, 2, 1, -1, -1, 7])
            & (needs_no_table(t, &key(0, 0, b"ij--")) == Ok(true))
            & (needs_no_table(t, &key(0, 0, b"ji--")) == Ok(false))
            & (needs_no_table(t, &key(0, 1, b"ij--")) == Ok(false))
            & (needs_no_table(t, &key(0, 6, b"ij--")) == Err(LayoutFault::Unknown))
    );
}

#[test]
fn tables(rt: HostRuntime) -> Result<(), Fail> {
    let records = layouts();
    let pool = POOL;
    let Ok(t) = Table::try_new(&records, &pool) else {
        return Err(Fail::new("a faulty record"));
    };
    values(&rt, &t)?;
    binary_tables(&rt, &t);
    Ok(())
}
