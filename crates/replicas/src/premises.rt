//! A history, a half-loaded replica and a live one that meet what the laws ask for.

ghost use Rattle.replicas.specs.Example.{ExampleGoesLive, ExampleIsDumped, ExampleIsHistory};

/// There are a history with a dump, a replica that has the dump's items, and replays that make it live and
/// move it on: what the laws ask for can be met.
pub fn premises_can_be_met()
    ensures history { ExampleIsHistory }
    ensures dumped { ExampleIsDumped }
    ensures live { ExampleGoesLive }
{}
