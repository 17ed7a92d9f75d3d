//! Codes, operators and well-formed expressions.
use expression::codes::function_code;
use expression::fault::ExpressionFault;
use expression::formed::is_well_formed;
use expression::node::{BinaryOperator, Letters, Node, UnaryOperator};

const ONE: Node = Node::Number(1.0);

const PLUS: Node = Node::Binary(BinaryOperator::Add);

const MINUS: Node = Node::Unary(UnaryOperator::Minus);

#[test]
fn codes(rt: HostRuntime) {
    assert!(rt;
        (function_code("sin") == Ok(1))
            & (function_code("log10") == Ok(9))
            & (function_code("sqrt") == Ok(10))
            & (function_code("arccosh") == Ok(14))
            & (function_code("piecewise") == Ok(17))
            & (function_code("sec") == Err(ExpressionFault::Malformed))
            & (function_code("") == Err(ExpressionFault::Malformed))
    );
    assert!(rt;
        BinaryOperator::try_from('/').is_ok()
            & BinaryOperator::try_from('%').is_err()
            & UnaryOperator::try_from('-').is_ok()
            & UnaryOperator::try_from('*').is_err()
    );
}

#[test]
fn node_counts(rt: HostRuntime) {
    let mut nodes = [MINUS; 257];
    nodes[0] = ONE;
    assert!(rt;
        !is_well_formed(&nodes[0..0])
            & is_well_formed(&nodes[0..1])
            & is_well_formed(&nodes[0..256])
            & !is_well_formed(&nodes)
    );
}

// Numbers in front, one more than the operators behind them.
fn summed(nodes: &mut [Node]) -> bool {
    let numbers = nodes.len() / 2 + 1;
    for node in nodes.iter_mut().take(numbers) {
        *node = ONE;
    }
    is_well_formed(nodes)
}

#[test]
fn depths(rt: HostRuntime) {
    assert!(rt; summed(&mut [PLUS; 3]) & summed(&mut [PLUS; 63]) & !summed(&mut [PLUS; 65]));
}

fn called(code: u8, arguments: u8) -> bool {
    let f = Node::Call { code, arguments };
    match arguments {
        0 => is_well_formed(&[f]),
        1 => is_well_formed(&[ONE, f]),
        2 => is_well_formed(&[ONE, ONE, f]),
        _ => is_well_formed(&[
            ONE, ONE, ONE, ONE, ONE, ONE, ONE, ONE, ONE, ONE, ONE, ONE, ONE, ONE, ONE, f,
        ]),
    }
}

#[test]
fn malformed(rt: HostRuntime) {
    assert!(rt;
        !is_well_formed(&[PLUS])
            & !is_well_formed(&[ONE, PLUS])
            & !is_well_formed(&[ONE, ONE])
            & !is_well_formed(&[MINUS, ONE])
    );
    assert!(rt; called(1, 1) & called(15, 1) & called(16, 2) & called(17, 1) & called(17, 15));
    assert!(rt;
        !called(0, 1)
            & !called(18, 1)
            & !called(16, 1)
            & !called(1, 2)
            & !called(17, 0)
            & !called(17, 16)
    );
}

fn named(count: u8, codes: &[u8; 4]) -> bool {
    let letters = Letters {
        count,
        codes: *codes,
    };
    is_well_formed(&[Node::Name {
        variable: 9,
        letters,
    }])
}

#[test]
fn letters(rt: HostRuntime) {
    assert!(rt;
        named(0, b"----")
            & named(4, b"azaz")
            & named(2, b"ij--")
            & !named(5, b"aaaa")
            & !named(1, b"A---")
            & !named(3, b"ij--")
    );
}
