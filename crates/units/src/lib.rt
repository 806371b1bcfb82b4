// Arithmetic units: how exact results become 32-bit numbers, or nothing.
#![tactic(auto)]

pub mod arithmetic;
pub mod clamped;
pub mod strict;
pub mod wrapping;

#[cfg(test)]
mod tests {
    use crate::arithmetic::Arithmetic;
    use crate::clamped::Clamped;
    use crate::strict::Strict;
    use crate::wrapping::Wrapping;

    // 1073741823 * 2 + 2 is one more than the greatest 32-bit number.
    #[test]
    fn past_the_greatest(rt: HostRuntime) {
        let x = 1_073_741_823 * 2 + 2;
        assert_eq!(rt; Strict.narrow(x), None);
        assert_eq!(rt; Wrapping.narrow(x), Some(-2_147_483_648));
        assert_eq!(rt; Clamped.narrow(x), Some(32_767));
    }

    #[test]
    fn at_the_ends(rt: HostRuntime) {
        assert_eq!(rt; Strict.narrow(-2_147_483_648), Some(-2_147_483_648));
        assert_eq!(rt; Strict.narrow(-2_147_483_649), None);
        assert_eq!(rt; Wrapping.narrow(-2_147_483_649), Some(2_147_483_647));
        assert_eq!(rt; Wrapping.narrow(i64::MIN), Some(0));
        assert_eq!(rt; Clamped.narrow(-32_768), Some(-32_768));
        assert_eq!(rt; Clamped.narrow(-32_769), Some(-32_768));
        assert_eq!(rt; Clamped.narrow(i64::MAX), Some(32_767));
    }
}
