//! The exceptions of the map that parts state.

use crate::map::OsdMap;
use keylist::sort_distinct;
use mapparts::ExceptionPart;
use maptypes::{Entry, Exception, StandsFor, exceptions_of};
use refusal::Refusal;
use std::alloc::Global;

impl OsdMap {
    ghost use Rattle.std.specs.Prelude.{◌≡◌, true, map};
    ghost use Rattle.std.specs.List.{list_all};
    ghost use Rattle.refusal.specs.declared.refused.Refusal.TheVariants.{BadException};
    ghost use Rattle.maptypes.specs.Exceptions.{key_of, is_exception};
    ghost use Rattle.osdmap.specs.Maps.{osd_exists};
    ghost use Rattle.mapparts.specs.Limits.{stock};
    ghost use Rattle.mapparts.specs.Parts.{exceptions_fit};
    ghost use Rattle.maptypes.specs.Values.{exception_of};
    ghost use Rattle.refusal.specs.Outcomes.{Makes};
    ghost use Rattle.osdmap.specs.Stated.{exceptions_ok};
    ghost use Rattle.refusal.specs.Outcomes.{refused_unless};
    ghost use Rattle.keylist.specs.Order.{Rises};

    /// Whether an exception is of a group that is there, names OSDs that exist, and is sound.
    fn is_exception<E: Entry>(&self, exception: &Exception<E>) -> bool
        ensures { result ≡ is_exception E.names E.sound self.now.map.pools (osd_exists self.now.map) exception.now }
    {
        match self.pool(exception.pg.pool) {
            Some(pool) => {
                exception.pg.number < pool.pg_num()
                    && self.knows_named(exception)
                    && exception.is_sound(&pool)
            }
            None => false,
        }
    }

    /// Whether each of some exceptions is one of the map.
    fn are_exceptions<E: Entry>(&self, exceptions: &[Exception<E>]) -> bool
        ensures { result ≡ list_all (is_exception E.names E.sound self.now.map.pools
            (osd_exists self.now.map)) exceptions.now }
    {
        exceptions.iter().all(
            |exception| -> bool
                ensures { result ≡ is_exception E.names E.sound self.entry.now.map.pools
                    (osd_exists self.entry.now.map) exception.now }
            { self.is_exception(exception) },
        )
    }

    /// The exceptions of the map that parts within the limits state, by group upwards: `BadException` (17) where one of
    /// them is none, or has the group of another.
    pub(crate) fn exceptions_in<E: Entry, P: StandsFor<E>>(
        &self,
        alloc: Global,
        parts: &[ExceptionPart<P>],
    ) -> Result<Vec<Exception<E>>, Refusal>
        requires { exceptions_fit (P.within stock) parts.now ≡ true }
        ensures { Makes result (refused_unless (exceptions_ok E.names E.sound self.now.map.pools
            (osd_exists self.now.map) (map (exception_of P.entry_of) parts.now)) BadException)
            (λ es. Rises key_of (map (exception_of P.entry_of) parts.now) es.items) }
    {
        let exceptions = exceptions_of(alloc, parts)?;
        if !self.are_exceptions(&exceptions) {
            return Err(Refusal::BadException);
        }
        sort_distinct(exceptions, Refusal::BadException)
    }
}
