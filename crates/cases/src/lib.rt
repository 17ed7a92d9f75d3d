//! Worked cases: proved of the definitions, and run through the code.
#![tactic(auto)]

ghost use Rattle.cases.specs.Worked.{Worked};

/// Each worked case holds of the definitions that the contracts are written in.
pub fn worked_cases_stand()
    ensures { Worked }
{}

#[cfg(test)]
mod tests {
    use grid::grid::Grid;
    use grid::shapes::GridShape;
    use layout::catalogue::Catalogue;
    use layout::fault::{LayoutFault, Rule};
    use layout::find::{eq_nonzeros, find_nnz_index};
    use layout::kind::LayoutKind;
    use layout::layout_ref::LayoutRef;
    use reader::read::read;
    use reader::record::{BlockRecord, ReaderFault};
    use std::test::Fail;
    use table::record::LayoutRecord;
    use table::rules::check_records;
    use table::table::Table;
    use translation::route::Route;

    fn shape(kind: LayoutKind, rank: usize, lengths: [usize; 4]) -> GridShape {
        GridShape {
            kind,
            rank,
            lengths,
        }
    }

    fn record(
        kind: LayoutKind,
        rank: usize,
        lengths: [usize; 4],
        start: usize,
        count: usize,
    ) -> LayoutRecord {
        LayoutRecord {
            kind,
            rank,
            lengths,
            start,
            count,
        }
    }

    #[test]
    fn grid_answers(rt: HostRuntime) -> Result<(), Fail> {
        let a = shape(LayoutKind::Dense, 2, [2, 3, 0, 0]);
        let b = shape(LayoutKind::Dense, 2, [1, 3, 0, 0]);
        let d = shape(LayoutKind::Diagonal, 2, [3, 3, 0, 0]);
        let Ok(g) = Grid::new(&[a, b, d, a]) else {
            return Err(Fail::new("a faulty shape"));
        };
        assert!(rt; g.count() == 4);
        assert!(rt; g.number(0, [1, 2, 0, 0]) == Ok(Some(5)));
        assert!(rt; g.number(0, [2, 0, 0, 0]) == Ok(None));
        assert!(rt; g.number(0, [0, -1, 0, 0]) == Ok(None));
        assert!(rt; g.number(2, [2, 2, 9, 9]) == Ok(Some(2)));
        assert!(rt; g.number(4, [0, 0, 0, 0]) == Err(LayoutFault::Unknown));
        assert!(rt; find_nnz_index(&g, 1, [4, 1, 0, 0]) == Ok(Some(1)));
        assert!(rt; eq_nonzeros(&g, 0, 3) == Ok(true));
        assert!(rt; eq_nonzeros(&g, 0, 1) == Ok(false));
        assert!(rt; g.place(0, 4) == Some([1, 1, 0, 0]));
        Ok(())
    }

    // Three places of a sparse 3 by 3 layout, and one outside it.
    const POOL: [u16; 8] = [0, 0, 0, 2, 2, 1, 3, 0];

    #[test]
    fn table_answers(rt: HostRuntime) -> Result<(), Fail> {
        let a = record(LayoutKind::Sparse, 2, [3, 3, 0, 0], 0, 3);
        let b = record(LayoutKind::Diagonal, 2, [3, 3, 0, 0], 0, 0);
        let c = record(LayoutKind::Dense, 0, [0, 0, 0, 0], 0, 0);
        let records = [a, b, c, a];
        let pool = POOL;
        let Ok(t) = Table::try_new(&records, &pool) else {
            return Err(Fail::new("a faulty record"));
        };
        assert!(rt; t.count() == 4);
        assert!(rt; t.number(0, [2, 1, 0, 0]) == Ok(Some(2)));
        assert!(rt; t.number(0, [1, 1, 0, 0]) == Ok(None));
        assert!(rt; t.number(1, [1, 1, 0, 0]) == Ok(Some(1)));
        assert!(rt; t.number(2, [7, 7, 7, -7]) == Ok(Some(0)));
        assert!(rt; eq_nonzeros(&t, 0, 3) == Ok(true));
        assert!(rt; eq_nonzeros(&t, 0, 1) == Ok(false));
        assert!(rt; t.place(0, 1) == Some([0, 2, 0, 0]));
        assert!(rt; t.place(0, 3) == None);
        let Ok(first) = LayoutRef::new(&t, 0) else {
            return Err(Fail::new("no first layout"));
        };
        assert!(rt; first.place_or_zeros(3) == [0, 0, 0, 0]);
        Ok(())
    }

    // Whether a record after a sound one is refused with a rule.
    fn refused(r: LayoutRecord, rule: Rule) -> bool {
        let sound = record(LayoutKind::Dense, 4, [16, 16, 16, 16], 0, 0);
        check_records(&[sound, r], &POOL) == Err(LayoutFault::Faulty { record: 1, rule })
    }

    #[test]
    fn faulty_records(rt: HostRuntime) {
        assert!(rt; refused(record(LayoutKind::Dense, 5, [1, 1, 1, 1], 0, 0), Rule::Rank));
        assert!(rt;
            refused(
                record(LayoutKind::Diagonal, 0, [1, 1, 1, 1], 0, 0),
                Rule::Rank,
            )
        );
        assert!(rt;
            refused(
                record(LayoutKind::Sparse, 0, [1, 1, 1, 1], 0, 1),
                Rule::Rank,
            )
        );
        assert!(rt;
            refused(
                record(LayoutKind::Dense, 1, [0, 1, 1, 1], 0, 0),
                Rule::Length,
            )
        );
        assert!(rt;
            refused(
                record(LayoutKind::Dense, 1, [4097, 1, 1, 1], 0, 0),
                Rule::Length,
            )
        );
        assert!(rt;
            refused(
                record(LayoutKind::Dense, 2, [4096, 17, 1, 1], 0, 0),
                Rule::Count,
            )
        );
        assert!(rt;
            refused(
                record(LayoutKind::Sparse, 2, [3, 3, 1, 1], 0, 0),
                Rule::Count,
            )
        );
        assert!(rt;
            refused(
                record(LayoutKind::Diagonal, 2, [3, 4, 1, 1], 0, 0),
                Rule::Axes,
            )
        );
        assert!(rt;
            refused(
                record(LayoutKind::Sparse, 2, [3, 3, 1, 1], 0, 5),
                Rule::Pool,
            )
        );
        assert!(rt;
            refused(
                record(LayoutKind::Sparse, 2, [3, 3, 1, 1], 0, 4),
                Rule::Inside,
            )
        );
        assert!(rt;
            refused(
                record(LayoutKind::Sparse, 1, [4, 0, 0, 0], 0, 3),
                Rule::Order,
            )
        );
    }

    #[test]
    fn sound_edges(rt: HostRuntime) {
        let edges = [
            record(LayoutKind::Dense, 2, [4096, 16, 9999, 0], 0, 0),
            record(LayoutKind::Diagonal, 4, [4096, 4096, 4096, 4096], 0, 0),
            record(LayoutKind::Sparse, 1, [4096, 0, 0, 0], 7, 1),
        ];
        assert!(rt; check_records(&edges, &POOL) == Ok(()));
    }

    #[test]
    fn faulty_shapes(rt: HostRuntime) -> Result<(), Fail> {
        let a = shape(LayoutKind::Dense, 1, [1, 0, 0, 0]);
        let s = shape(LayoutKind::Sparse, 1, [1, 0, 0, 0]);
        let d = shape(LayoutKind::Diagonal, 2, [2, 3, 0, 0]);
        let shapes = [a, s, d, a, a, a, a, a, a, a, a, a, a, a, a, a, a];
        match Grid::new(&shapes[..2]) {
            Ok(_) => return Err(Fail::new("a sparse shape was kept")),
            Err(f) => assert!(rt;
                f == LayoutFault::Faulty {
                    record: 1,
                    rule: Rule::Kind,
                }
            ),
        }
        match Grid::new(&shapes) {
            Ok(_) => Err(Fail::new("a seventeenth shape was kept")),
            Err(f) => {
                assert!(rt;
                    f == LayoutFault::Faulty {
                        record: 16,
                        rule: Rule::Room,
                    }
                );
                Ok(())
            },
        }
    }

    #[test]
    fn follows_a_record(rt: HostRuntime) -> Result<(), Fail> {
        let a = record(LayoutKind::Sparse, 2, [3, 3, 0, 0], 0, 3);
        let rows = record(LayoutKind::Sparse, 1, [3, 0, 0, 0], 6, 2);
        let records = [a, rows];
        let pool = [0, 0, 0, 2, 2, 1, 0, 2];
        let Ok(t) = Table::try_new(&records, &pool) else {
            return Err(Fail::new("a faulty record"));
        };
        let route = Route {
            source: 0,
            via: 1,
            start: [0, 0, 0, 0],
            target: 1,
        };
        let mut index = [0; 4];
        let Ok(block) = BlockRecord::new(&t, route, &mut index, 0) else {
            return Err(Fail::new("a refused block"));
        };
        assert!(rt; index == [0, 2, 2, 3]);
        let mut sums = [0.0, 0.0];
        assert!(rt; read(&block, &index, &[1.0, 2.0, 4.0], &mut sums) == Ok(()));
        assert!(rt; sums[0] == 3.0 && sums[1] == 4.0);
        let mut marks = [0u64, 0];
        assert!(rt; read(&block, &index, &[1, 2, 4], &mut marks) == Ok(()));
        assert!(rt; marks == [3, 4]);
        assert!(rt; read(&block, &index, &[1, 2], &mut marks) == Err(ReaderFault::Short));
        Ok(())
    }
}
