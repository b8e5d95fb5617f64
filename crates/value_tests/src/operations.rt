// Values worked by hand from the Power ISA.
use effect_model::Op;
use effect_ops::operations::{results, stops};

#[test]
fn operations_give_these_words(rt: HostRuntime) {
    let rows = [
        // addc, subfc and subfe: the sum and the carry
        (Op::CarryingSum, 0xffff_fffe, 1, 1, (0, 1)),
        (Op::CarryingDifference, 1, 0, 1, (0xffff_ffff, 0)),
        (Op::CarryingDifference, 0xffff_ffff, 0, 0, (0, 0)),
        (Op::Difference, 10, 3, 0, (0xffff_fff9, 0)),
        (Op::HighProduct, 0x8000_0000, 2, 0, (0xffff_ffff, 0)),
        (Op::HighProductUnsigned, 0x8000_0000, 2, 0, (1, 0)),
        // -9 by 4 and 9 by -4, toward zero
        (Op::Quotient, 0xffff_fff7, 4, 0, (0xffff_fffe, 0)),
        (Op::Quotient, 9, 0xffff_fffc, 0, (0xffff_fffe, 0)),
        (Op::QuotientUnsigned, 0xffff_fff7, 4, 0, (0x3fff_fffd, 0)),
        (Op::OrNot, 0, 0xffff_fff0, 0, (15, 0)),
        (Op::ShiftLeft, 3, 31, 0, (0x8000_0000, 0)),
        (Op::ShiftLeft, 3, 32, 0, (0, 0)),
        (Op::ShiftRight, 0xc000_0000, 31, 0, (1, 0)),
        (Op::ShiftRightSigned, 0x8000_0001, 1, 0, (0xc000_0000, 1)),
        (Op::ShiftRightSigned, 0x8000_0000, 63, 0, (0xffff_ffff, 1)),
        (Op::Rotation(4, 28, 31), 0xf000_000a, 0, 0, (15, 0)),
        (
            Op::Insertion(16, 0, 15),
            0xabcd,
            0x1234,
            0,
            (0xabcd_1234, 0),
        ),
        (Op::LeadingZeros, 0x0000_8000, 0, 0, (16, 0)),
        (Op::SignedByte, 0xff, 0, 0, (0xffff_ffff, 0)),
        (Op::Comparison, 0x8000_0000, 1, 0, (1, 0)),
        (Op::ComparisonUnsigned, 0x8000_0000, 1, 0, (0, 1)),
    ];
    for (op, x, y, z, (first, second)) in rows {
        let given = results(op, x, y, z);
        assert_eq!(rt; given.first, first, "{x} {y} {z}");
        assert_eq!(rt; given.second, second, "{x} {y} {z}");
    }
    assert!(rt; stops(Op::Quotient, 0x8000_0000, 0xffff_ffff));
    assert!(rt; !stops(Op::QuotientUnsigned, 0x8000_0000, 0xffff_ffff));
}
