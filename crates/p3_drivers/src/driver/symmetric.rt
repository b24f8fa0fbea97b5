//! The steps with one name on both sides, for code that plays either side.
ghost use Rattle.p3_drivers.specs.Drivers.{driving_of};

use crate::DriverState;
use crate::tape::Tape;
use p3_challenger_core::{CanObserve, Sponge};
use p3_codecs::ScalarCodec;
use p3_driver_core::{Driver, SymmetricSteps, TranscriptBound};
use p3_field_core::{AlgebraIdentity, Named};
use p3_fs_core::{Label, TranscriptError, TranscriptField};
use p3_grinding::CanSampleUniformBits;
use p3_symmetric::DigestHasher;

impl<C: Sponge, U, D: DigestHasher, P: Tape> Driver for DriverState<C, U, D, P> {}

impl<C: Sponge, U, D: DigestHasher, P: Tape> SymmetricSteps for DriverState<C, U, D, P> {
    type Challenger = C;

    type Digest = D;

    ghost transcript = { λ driver. (driving_of C.state P.bytes driver).transcript };

    ghost bytes = { λ driver. (driving_of C.state P.bytes driver).bytes };

    fn halt(&mut self) {
        DriverState::halt(self)
    }

    fn begin_protocol<T: Named>(&mut self, label: Label) -> Result<(), TranscriptError> {
        DriverState::begin_protocol::<T>(self, label)
    }

    fn end_protocol<T: Named>(&mut self, label: Label) -> Result<(), TranscriptError> {
        DriverState::end_protocol::<T>(self, label)
    }

    fn observe_opaque<T: Clone>(
        &mut self,
        label: Label,
        value: T,
    ) -> Result<TranscriptBound<T>, TranscriptError>
    where
        C: CanObserve<T>,
    {
        DriverState::observe_opaque::<T>(self, label, value)
    }

    fn observe_extension<
        F: TranscriptField,
        EF: AlgebraIdentity<F> + Named,
        Cdc: ScalarCodec<C, F>,
    >(&mut self, label: Label, value: &EF) -> Result<TranscriptBound<EF>, TranscriptError> {
        DriverState::observe_extension::<F, EF, Cdc>(self, label, value)
    }

    fn challenge_extension<
        F: TranscriptField,
        EF: AlgebraIdentity<F> + Named,
        Cdc: ScalarCodec<C, F>,
    >(&mut self, label: Label) -> Result<TranscriptBound<EF>, TranscriptError> {
        DriverState::challenge_extension::<F, EF, Cdc>(self, label)
    }

    fn challenge_extensions_rejecting<
        F: TranscriptField,
        EF: AlgebraIdentity<F> + Named,
        Cdc: ScalarCodec<C, F>,
        R: Fn(&EF, &[EF]) -> bool,
    >(
        &mut self,
        label: Label,
        n: usize,
        accept: &R,
        limit: u64,
    ) -> Result<Vec<TranscriptBound<EF>>, TranscriptError> {
        DriverState::challenge_extensions_rejecting::<F, EF, Cdc, R>(self, label, n, accept, limit)
    }

    fn challenge_uniform_bits<F>(
        &mut self,
        label: Label,
        width: usize,
        n: usize,
    ) -> Result<Vec<TranscriptBound<usize>>, TranscriptError>
    where
        C: CanSampleUniformBits<F>,
    {
        DriverState::challenge_uniform_bits::<F>(self, label, width, n)
    }
}
