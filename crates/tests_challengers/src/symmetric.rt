ghost use Rattle.std.specs.Prelude.{◌≡◌, ◌↔◌, IsTrue};
ghost use Rattle.p3_symmetric.specs.Digests.{values_of};

use p3_field::{F257, PrimeField64};
use p3_symmetric::{Hash, MerkleCap};
use p3_test_support::element;
use std::test::Fail;

// ---- what generic code knows: each of these is proved from its bound alone

fn digest_from<F, T, const N: usize>(values: [T; N]) -> Hash<F, T, N>
    ensures { values_of result ≡ values }
{
    Hash::from(values)
}

fn same_digest<F, T: PrimeField64, const N: usize>(x: &Hash<F, T, N>, y: &Hash<F, T, N>) -> bool
    ensures { IsTrue result ↔ x.now ≡ y.now }
{
    Hash::<F, T, N>::compared_by_values();
    x == y
}

// ---- the same at concrete types, with values from elsewhere

// The field of digests and caps: a marker alone.
struct Marker;

fn three(x: u64, y: u64, z: u64) -> [F257; 3] {
    [element(x), element(y), element(z)]
}

#[test]
fn digests_and_caps_hold_their_values(rt: HostRuntime) -> Result<(), Fail> {
    let digest: Hash<Marker, u8, 3> = digest_from([5, 6, 7]);
    let empty: Hash<Marker, u8, 0> = digest_from([]);
    let elements: Hash<Marker, F257, 3> = digest_from(three(5, 6, 7));
    let cap: MerkleCap<Marker, [u8; 2]> = MerkleCap::new(vec![in rt.alloc();
        [5u8, 6],
        [7, 8],
        [9, 10],
    ]?);
    let hold = [
        digest.as_ref() == &[5, 6, 7],
        empty.as_ref().is_empty(),
        same_digest(&elements, &digest_from(three(5, 6, 264))),
        !same_digest(&elements, &digest_from(three(5, 6, 8))),
        cap.roots() == [[5, 6], [7, 8], [9, 10]].as_slice(),
    ];
    assert_eq!(rt; hold, [true; 5]);
    Ok(())
}
