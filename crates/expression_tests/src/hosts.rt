//! Hosts and functions.
use expression::functions::{binary, call};
use expression::host::Host;
use expression::node::BinaryOperator;
use expression::root_host::RootHost;
use expression::table_host::{Arguments, HostEntry, TableHost};

fn entry(code: u8, arguments: Arguments, value: f64) -> HostEntry {
    HostEntry {
        code,
        arguments,
        value,
    }
}

#[test]
fn root_host(rt: HostRuntime) {
    assert!(rt;
        (RootHost.ask(10, &[9.0]) == Some(3.0))
            & (RootHost.ask(7, &[0.0]) == None)
            & (RootHost.ask(10, &[9.0, 9.0]) == None)
    );
}

#[test]
fn table_host(rt: HostRuntime) {
    let entries = [
        entry(7, Arguments::One(-2.0), 0.0),
        entry(16, Arguments::Two(2.0, 3.0), 8.0),
        entry(7, Arguments::One(-2.0), 5.0),
        entry(8, Arguments::One(0.0), 4.0),
    ];
    let host = TableHost::new(&entries);
    assert!(rt;
        (host.ask(7, &[-2.0]) == Some(0.0))
            & (host.ask(16, &[2.0, 3.0]) == Some(8.0))
            & (host.ask(16, &[3.0, 2.0]) == None)
            & (host.ask(8, &[-0.0]) == Some(4.0))
            & (host.ask(1, &[-2.0]) == None)
    );
    // 1 / (1 + exp(-2))
    assert!(rt; (call(&host, 12, &[2.0]) == Some(1.0)) & (call(&host, 12, &[-2.0]) == None));
}

#[test]
fn functions(rt: HostRuntime) {
    assert!(rt;
        (binary(BinaryOperator::Subtract, 7.0, 2.0) == 5.0)
            & (binary(BinaryOperator::Divide, 6.0, 3.0) == 2.0)
            & (call(&RootHost, 11, &[-2.0]) == Some(2.0))
            & (call(&RootHost, 15, &[0.0]) == Some(1.0))
            & (call(&RootHost, 15, &[-1.0]) == Some(0.0))
            & (call(&RootHost, 17, &[-1.0, 5.0, 0.0, 6.0, 7.0]) == Some(6.0))
            & (call(&RootHost, 17, &[-1.0, 5.0, -1.0, 6.0, 7.0]) == Some(7.0))
    );
    // an even number of arguments has one that nothing asks for
    assert!(rt;
        (call(&RootHost, 17, &[1.0, 5.0]) == Some(5.0))
            & (call(&RootHost, 17, &[1.0, 5.0, 6.0, 7.0]) == Some(5.0))
            & (call(&RootHost, 17, &[3.0]) == Some(3.0))
    );
}
