// The search on graphs with circles and without.
#![tactic(auto)]

#[cfg(test)]
mod chain;
#[cfg(test)]
mod table;

#[cfg(test)]
mod tests {
    use crate::chain::Chain;
    use crate::table::Table;
    use graph::Graph;
    use graph::fault::ListFault;
    use graph::found::Found;
    use graph::search::search;

    // What a search leaves in lists that held 7 and 9 before.
    #[derive(Drop)]
    struct Outcome {
        answer: Result<Found, ListFault>,
        circle: [u8; 64],
        marks: [u8; 64],
    }

    fn searched<G: Graph>(graph: &G) -> Outcome {
        let mut circle = [7; 64];
        let mut marks = [9; 64];
        let answer = search(graph, &mut circle, &mut marks);
        Outcome {
            answer,
            circle,
            marks,
        }
    }

    // The order that was found, where the circle list is as it was and the marks are clear.
    fn order(outcome: &Outcome) -> Option<&[u8]> {
        let Ok(Found::Order(order)) = &outcome.answer else {
            return None;
        };
        if outcome.circle == [7; 64] && outcome.marks == [0; 64] {
            Some(order.as_slice())
        } else {
            None
        }
    }

    // The circle that was found, where the rest of its list is as it was and the marks are clear.
    fn circle(outcome: &Outcome) -> Option<&[u8]> {
        let Ok(Found::Circle(count)) = &outcome.answer else {
            return None;
        };
        let rest = outcome.circle.get(*count..)?;
        if rest.iter().all(|b| *b == 7) && outcome.marks == [0; 64] {
            outcome.circle.get(..*count)
        } else {
            None
        }
    }

    #[test]
    fn lowest_numbered_first(rt: HostRuntime) {
        let found = searched(&Table::new(&[(4, 0), (2, 1), (4, 1)], 5));
        assert!(rt; order(&found) == Some([2, 3, 4, 0, 1].as_slice()));
        let found = searched(&Table::new(&[(0, 1), (1, 2), (0, 2)], 3));
        assert!(rt; order(&found) == Some([0, 1, 2].as_slice()));
        let found = searched(&Table::new(&[], 8));
        assert!(rt; order(&found) == Some([0, 1, 2, 3, 4, 5, 6, 7].as_slice()));
    }

    #[test]
    fn no_node(rt: HostRuntime) {
        let found = searched(&Table::new(&[], 0));
        assert!(rt; order(&found) == Some([].as_slice()));
        let found = searched(&Table::new(&[(0, 0)], 0));
        assert!(rt; order(&found) == Some([].as_slice()));
    }

    #[test]
    fn a_circle_of_one(rt: HostRuntime) {
        let found = searched(&Table::new(&[(2, 2), (0, 1)], 3));
        assert!(rt; circle(&found) == Some([2].as_slice()));
    }

    #[test]
    fn a_circle_of_two(rt: HostRuntime) {
        let found = searched(&Table::new(&[(1, 3), (3, 1), (0, 1), (3, 2)], 4));
        let shown = circle(&found);
        assert!(rt; shown == Some([1, 3].as_slice()) || shown == Some([3, 1].as_slice()));
    }

    #[test]
    fn a_circle_of_three_among_others(rt: HostRuntime) {
        let arcs = [(0, 2), (2, 5), (5, 3), (3, 2), (3, 1), (5, 1), (4, 5)];
        let found = searched(&Table::new(&arcs, 7));
        let shown = circle(&found);
        assert!(rt;
            shown == Some([2, 5, 3].as_slice())
                || shown == Some([5, 3, 2].as_slice())
                || shown == Some([3, 2, 5].as_slice())
        );
    }

    #[test]
    fn chains_of_64(rt: HostRuntime) {
        let found = searched(&Chain::new(64, false));
        let Some(forwards) = order(&found) else {
            panic!(rt; "no order")
        };
        assert_eq!(rt; forwards.len(), 64);
        assert!(rt;
            forwards
                .iter()
                .enumerate()
                .all(|(i, node)| *node as usize == i)
        );
        let found = searched(&Chain::new(64, true));
        let Some(backwards) = order(&found) else {
            panic!(rt; "no order")
        };
        assert_eq!(rt; backwards.len(), 64);
        assert!(rt;
            backwards
                .iter()
                .rev()
                .enumerate()
                .all(|(i, node)| *node as usize == i)
        );
    }

    #[test]
    fn lists_of_another_length(rt: HostRuntime) {
        let graph = Table::new(&[(0, 0)], 1);
        let mut right = [9; 64];
        let mut short = [7; 63];
        let mut long = [7; 65];
        assert!(rt;
            matches!(
                search(&graph, &mut short, &mut right),
                Err(ListFault::CircleLength(63))
            )
        );
        assert!(rt;
            matches!(
                search(&graph, &mut long, &mut right),
                Err(ListFault::CircleLength(65))
            )
        );
        assert!(rt;
            matches!(
                search(&graph, &mut right, &mut short),
                Err(ListFault::MarksLength(63))
            )
        );
        assert!(rt;
            matches!(
                search(&graph, &mut right, &mut long),
                Err(ListFault::MarksLength(65))
            )
        );
        assert!(rt; right == [9; 64]);
        assert!(rt; short == [7; 63]);
        assert!(rt; long == [7; 65]);
        let mut other = [7; 65];
        assert!(rt;
            matches!(
                search(&graph, &mut short, &mut other),
                Err(ListFault::CircleLength(63))
            )
        );
        assert!(rt; short == [7; 63]);
        assert!(rt; other == [7; 65]);
    }

    #[test]
    fn words_of_a_refusal(rt: HostRuntime) -> Result<(), std::test::Fail> {
        let said = format!(in rt.alloc();
            "{}; {}",
            ListFault::CircleLength(63),
            ListFault::MarksLength(0)
        )?;
        assert_eq!(rt;
            said.as_str(),
            "the circle list has 63 bytes, not 64; the marks have 0 bytes, not 64"
        );
        Ok(())
    }
}
