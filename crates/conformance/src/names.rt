// The names of fields and of their algebras.
use p3_field::{BabyBear, Coeffs, KoalaBear};

/// Elements of four coefficients of BabyBear.
pub type Four = Coeffs<BabyBear, 4>;

/// The same of KoalaBear.
pub type FourOfKoalaBear = Coeffs<KoalaBear, 4>;

/// A field.
#[derive(Clone, Copy)]
pub enum FieldName {
    BabyBear,
    KoalaBear,
    Goldilocks,
    F257,
}

/// A field as an algebra over itself, or the elements of four coefficients of BabyBear or of KoalaBear.
#[derive(Clone, Copy)]
pub enum AlgebraName {
    Scalars(FieldName),
    Four,
    FourOfKoalaBear,
}

/// How a file names each field.
pub const FIELDS: [(&str, FieldName); 4] = [
    ("bb", FieldName::BabyBear),
    ("kb", FieldName::KoalaBear),
    ("gl", FieldName::Goldilocks),
    ("f257", FieldName::F257),
];

/// How a file names each algebra.
pub const ALGEBRAS: [(&str, AlgebraName); 6] = [
    ("bb", AlgebraName::Scalars(FieldName::BabyBear)),
    ("kb", AlgebraName::Scalars(FieldName::KoalaBear)),
    ("gl", AlgebraName::Scalars(FieldName::Goldilocks)),
    ("f257", AlgebraName::Scalars(FieldName::F257)),
    ("bb4", AlgebraName::Four),
    ("kb4", AlgebraName::FourOfKoalaBear),
];
