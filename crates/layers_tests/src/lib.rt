// Trips, pairs and limits run on examples, nested too.
#![tactic(auto)]

#[cfg(test)]
mod tests {
    use file_rig::table::FileRig;
    use kinds::design::Design;
    use limit_rig::limit::Limit;
    use pair_rig::pair::Pair;
    use refusal::Code;
    use rig::Rig;
    use rig::cause::RigFault;
    use std::alloc::Global;
    use std::test::Fail;
    use trip_rig::trip::TripRig;

    // The refusal of a call by its numbers, where there is one.
    // This and `code` stand in file_rig_tests too: a library for so little would be no plainer.
    fn refused<T: Drop>(answer: Result<T, RigFault>) -> Option<Code> {
        answer.err().map(Code::from)
    }

    // A refusal by its four numbers.
    fn code(number: usize, layer: usize, a: usize, b: usize) -> Code {
        Code {
            number,
            layer,
            a,
            b,
        }
    }

    fn constants(heap: Global, count: u8) -> Result<FileRig, Fail> {
        let mut rig = FileRig::new(heap);
        for letter in b'a'..b'a'.saturating_add(count) {
            rig.add(&[letter], Design::Constant { v: 0 })?;
        }
        Ok(rig)
    }

    #[test]
    fn a_trip_is_played(rt: HostRuntime) -> Result<(), Fail> {
        let mut rig = TripRig::new(rt.alloc(), &[3, 0, 2, 4, 9, 0])?;
        assert_eq!(rt; rig.units(), 1);
        assert_eq!(rt; rig.step(0, 2)?, 2);
        assert_eq!(rt; rig.get(0, 0)?, 0);
        rig.save(0, 1)?;
        assert_eq!(rt; rig.step(0, 1)?, 1);
        assert_eq!(rt; rig.get(0, 0)?, 4);
        assert_eq!(rt; rig.step(0, 3)?, 2);
        assert_eq!(rt; refused(rig.get(0, 0)), Some(code(3, 4, 0, 0)));
        rig.restore(0, 1)?;
        assert_eq!(rt; rig.get(0, 0)?, 0);
        assert_eq!(rt; rig.step(0, 1)?, 1);
        assert_eq!(rt; rig.step(0, 2)?, 2);
        assert_eq!(rt; rig.step(0, 9)?, 9);
        assert_eq!(rt; rig.get(0, 0)?, 0);
        assert_eq!(rt; rig.step(0, 1)?, 0);
        assert_eq!(rt; refused(rig.put(0, 0, 1)), Some(code(1, 4, 0, 0)));
        Ok(())
    }

    #[test]
    fn where_reading_ends(rt: HostRuntime) -> Result<(), Fail> {
        assert_eq!(rt; TripRig::new(rt.alloc(), &[])?.units(), 0);
        assert_eq!(rt; TripRig::new(rt.alloc(), &[5])?.units(), 0);
        assert_eq!(rt; TripRig::new(rt.alloc(), &[0, 7])?.units(), 0);
        assert_eq!(rt; TripRig::new(rt.alloc(), &[1_000_001, 7])?.units(), 0);
        let mut half = TripRig::new(rt.alloc(), &[1, 7, 2])?;
        assert_eq!(rt; half.step(0, 1)?, 1);
        assert_eq!(rt; half.get(0, 0)?, 7);
        assert_eq!(rt; half.step(0, 1)?, 0);
        let mut bad = TripRig::new(rt.alloc(), &[1_000_000, 7, -1, 3, 1, 1])?;
        assert_eq!(rt; bad.step(0, 1_000_000)?, 1_000_000);
        assert_eq!(rt; bad.get(0, 0)?, 7);
        assert_eq!(rt; bad.step(0, 1)?, 0);
        Ok(())
    }

    #[test]
    fn at_most_4096_pairs(rt: HostRuntime) -> Result<(), Fail> {
        let numbers = vec![in rt.alloc(); 1; 2 * 4097]?;
        let mut rig = TripRig::new(rt.alloc(), &numbers)?;
        for _ in 0..4096 {
            assert_eq!(rt; rig.step(0, 1)?, 1);
        }
        assert_eq!(rt; rig.step(0, 1)?, 0);
        Ok(())
    }

    #[test]
    fn a_pair_numbers_its_units(rt: HostRuntime) -> Result<(), Fail> {
        let trip = TripRig::new(rt.alloc(), &[3, 8])?;
        let mut rig = Pair::new(constants(rt.alloc(), 2)?, trip);
        assert_eq!(rt; rig.units(), 3);
        assert_eq!(rt; rig.get(2, 0)?, 8);
        assert_eq!(rt; refused(rig.put(2, 1, 0)), Some(code(1, 4, 2, 1)));
        assert_eq!(rt; refused(rig.free(2, 3)), Some(code(5, 4, 2, 3)));
        assert_eq!(rt; refused(rig.step(3, 1)), Some(code(1, 4, 3, 0)));
        assert_eq!(rt; rig.step(2, 4)?, 3);
        assert_eq!(rt; refused(rig.get(2, 0)), Some(code(3, 4, 2, 0)));
        let (constants, trip) = rig.into_parts();
        assert_eq!(rt; constants.units(), 2);
        assert!(rt; trip.status(0)?.loose);
        Ok(())
    }

    #[test]
    fn past_the_sixteenth(rt: HostRuntime) -> Result<(), Fail> {
        let trip = TripRig::new(rt.alloc(), &[3, 8])?;
        let rig = Pair::new(constants(rt.alloc(), 16)?, trip);
        assert_eq!(rt; rig.units(), 16);
        assert_eq!(rt; refused(rig.get(16, 0)), Some(code(1, 4, 16, 0)));
        Ok(())
    }

    #[test]
    fn a_limit_over_a_pair_over_a_limit(rt: HostRuntime) -> Result<(), Fail> {
        let inner = Limit::new(TripRig::new(rt.alloc(), &[9, 8])?, 4);
        let mut rig = Limit::new(Pair::new(constants(rt.alloc(), 1)?, inner), 6);
        assert_eq!(rt; rig.step(0, 6)?, 6);
        rig.save(0, 0)?;
        assert_eq!(rt; rig.step(0, 7)?, 6);
        assert_eq!(rt; refused(rig.step(0, 1)), Some(code(3, 4, 0, 0)));
        assert_eq!(rt; refused(rig.step(0, 0)), Some(code(2, 4, 0, 0)));
        rig.restore(0, 0)?;
        assert_eq!(rt; rig.step(0, 1)?, 1);
        rig.save(1, 2)?;
        assert_eq!(rt; rig.step(1, 6)?, 4);
        assert!(rt; rig.status(1)?.loose);
        rig.restore(1, 2)?;
        assert_eq!(rt; rig.step(1, 4)?, 4);
        assert_eq!(rt; rig.step(1, 4)?, 4);
        assert_eq!(rt; rig.step(1, 4)?, 1);
        Ok(())
    }

    #[test]
    fn the_nearest_limit(rt: HostRuntime) -> Result<(), Fail> {
        let mut low = Limit::new(constants(rt.alloc(), 1)?, 0);
        assert_eq!(rt; low.step(0, 1)?, 1);
        assert_eq!(rt; low.step(0, 2)?, 1);
        let mut high = Limit::new(constants(rt.alloc(), 1)?, 2_000_000);
        assert_eq!(rt; high.step(0, 1_000_000)?, 1_000_000);
        assert_eq!(rt; refused(high.step(0, 1_000_001)), Some(code(2, 4, 0, 0)));
        Ok(())
    }
}
