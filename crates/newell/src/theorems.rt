//! The theorems, each the contract of a function that does nothing, so that no check passes without its proof.

ghost use Rattle.newell.specs.Promise.{PlainRunThere, OnePlainRun, AtEachMoment, VehiclesConserved, BoundsKept, OrderKept, TravelTimes, RunsClear};
ghost use Rattle.newell.specs.Least.{NodesBalanced, LeastOfThree};
ghost use Rattle.newell.specs.Numbers.{LongestWalkThere, LongestStepsThere, PeriodOpens, MeterOpens};
ghost use Rattle.newell.specs.Corridor.{CorridorWorked, DivergeWorked};
ghost use Rattle.newell.specs.Now.{StepCarries, BookingCarries, OpeningStarts, IdleCarries, LinkTells, EntranceTells, ExitTells, RanCarries, EachMoment, ReachedSafe};

/// For every list of calls there is a plain run.
pub fn plain_run_there()
    ensures { PlainRunThere }
{}

/// Two plain runs for the same calls agree, in every answer and at every clock.
pub fn one_plain_run()
    ensures { OnePlainRun }
{}

/// All that is promised of a run holds at each moment.
pub fn promise_holds()
    ensures { AtEachMoment }
{}

/// For each exit, those waiting, on links and gone are those booked.
pub fn vehicles_conserved()
    ensures { VehiclesConserved }
{}

/// Jam storage, capacity at both ends, and free steps.
pub fn bounds_kept()
    ensures { BoundsKept }
{}

/// Vehicles leave links, and come on them, in order.
pub fn order_kept()
    ensures { OrderKept }
{}

/// The travel time is t + 1 less the first clock at which U reached V(t + 1).
pub fn travel_times()
    ensures { TravelTimes }
{}

/// Without bookings a run is empty after enough steps.
pub fn runs_clear()
    ensures { RunsClear }
{}

/// What left the links that enter a node came on those that leave it.
pub fn nodes_balanced()
    ensures { NodesBalanced }
{}

/// Newell's counts are the least of three.
pub fn least_of_three()
    ensures { LeastOfThree }
{}

/// What code shows of the readings that it keeps takes the plain run on, call by call.
pub fn calls_carry()
    ensures opening { OpeningStarts }
    ensures booking { BookingCarries }
    ensures stepping { StepCarries }
    ensures idle { IdleCarries }
    ensures link { LinkTells }
    ensures entrance { EntranceTells }
    ensures exit { ExitTells }
    ensures one_by_one { RanCarries }
    ensures moments { EachMoment }
    ensures safe { ReachedSafe }
{}

/// The numbers that clearing asks for are there.
pub fn clearing_numbers()
    ensures walk { LongestWalkThere }
    ensures steps { LongestStepsThere }
    ensures period { PeriodOpens }
    ensures meter { MeterOpens }
{}

/// The definitions on cases worked by hand.
pub fn worked_cases()
    ensures corridor { CorridorWorked }
    ensures diverge { DivergeWorked }
{}
