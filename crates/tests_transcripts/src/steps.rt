use p3_fs_core::{Hierarchy, Interaction, Kind, Length, TypeTag};

const BASIS: [u8; 32] = [
    0x00, 0x01, 0x0a, 0x10, 0x9f, 0xa0, 0xf9, 0xff, 0x00, 0x00, 0x00, 0x00, 0x00, 0x00, 0x00, 0x00,
    0x12, 0x34, 0x56, 0x78, 0x9a, 0xbc, 0xde, 0xf0, 0x7f, 0x80, 0x63, 0xc6, 0x5b, 0xb5, 0x2d, 0xd2,
];

const LATER_BASIS: [u8; 32] = [
    0x00, 0x01, 0x0b, 0x00, 0x00, 0x00, 0x00, 0x00, 0x00, 0x00, 0x00, 0x00, 0x00, 0x00, 0x00, 0x00,
    0x00, 0x00, 0x00, 0x00, 0x00, 0x00, 0x00, 0x00, 0x00, 0x00, 0x00, 0x00, 0x00, 0x00, 0x00, 0x00,
];

fn over_polynomials(modulus: u128) -> TypeTag {
    TypeTag::BinaryPolynomial {
        bits: 128,
        modulus,
        degree: 2,
        basis: BASIS,
    }
}

fn algebra(modulus: u64, degree: usize, basis: [u8; 32]) -> TypeTag {
    TypeTag::Algebra {
        modulus,
        degree,
        basis,
    }
}

#[test]
fn hierarchies_kinds_and_lengths_are_ordered_as_their_variants(rt: HostRuntime) {
    let hierarchies = [Hierarchy::Atomic, Hierarchy::Begin, Hierarchy::End];
    let kinds = [
        Kind::Protocol,
        Kind::Public,
        Kind::Message,
        Kind::Hint,
        Kind::Challenge,
        Kind::Pow,
        Kind::Salt,
    ];
    let lengths = [
        Length::None,
        Length::Scalar,
        Length::Fixed(0),
        Length::Fixed(9),
        Length::Bounded(0),
        Length::Bounded(1),
    ];
    assert!(rt; are_in_order(&hierarchies) && are_in_order(&kinds) && are_in_order(&lengths));
}

#[test]
fn tags_are_ordered_as_their_variants_and_then_by_their_fields(rt: HostRuntime) {
    let tower = TypeTag::BinaryTower {
        bits: 8,
        degree: 1,
        basis: BASIS,
    };
    let tags = [
        TypeTag::Marker,
        TypeTag::Bytes,
        algebra(257, 2, LATER_BASIS),
        algebra(257, 3, BASIS),
        algebra(257, 3, LATER_BASIS),
        algebra(2013265921, 1, BASIS),
        tower,
        over_polynomials(1),
        over_polynomials(u128::MAX),
        TypeTag::Opaque,
        TypeTag::Bits { width: 9 },
        TypeTag::UniformBits { width: 8 },
    ];
    assert!(rt; are_in_order(&tags));
}

#[test]
fn steps_are_ordered_part_by_part(rt: HostRuntime) {
    let steps = [
        Interaction::bytes(Hierarchy::Atomic, Kind::Public, "a", Length::Fixed(2)),
        Interaction::bytes(Hierarchy::Atomic, Kind::Message, "a", Length::Fixed(1)),
        Interaction::bytes(Hierarchy::Atomic, Kind::Message, "a", Length::Fixed(2)),
        Interaction::opaque(Hierarchy::Atomic, Kind::Message, "a", Length::Fixed(1)),
        Interaction::bytes(Hierarchy::Atomic, Kind::Message, "ab", Length::Fixed(1)),
        Interaction::bytes(Hierarchy::Atomic, Kind::Message, "b", Length::None),
        Interaction::marker::<()>(Hierarchy::Begin, Kind::Protocol, "a"),
        Interaction::marker::<u8>(Hierarchy::Begin, Kind::Protocol, "a"),
        Interaction::marker::<()>(Hierarchy::End, Kind::Protocol, "a"),
    ];
    assert!(rt; are_in_order(&steps));
}

/// Each value is below every later one, and equal to itself alone.
pub fn are_in_order<T: Ord>(values: &[T]) -> bool {
    for (i, x) in values.iter().enumerate() {
        for (j, y) in values.iter().enumerate() {
            if x.cmp(y) != i.cmp(&j) || (x < y) != (i < j) || (x == y) != (i == j) {
                return false;
            }
        }
    }
    true
}
