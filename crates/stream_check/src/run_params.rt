//! The parameters by which all streams of a run are checked.
ghost use Rattle.std.specs.Prelude.{◌≡◌, ◌≤◌};
ghost use Rattle.stream_check.specs.StreamParams.{max_tries};

use lrup_model::{Cube, Layout};
use std::marker::Model;

/// The parameters by which all streams of a run are checked: the layout, the cube, and how many
/// times a hint of another stream is fetched again while it is vacant.
#[derive(Drop)]
pub struct RunParams<'a> {
    layout: &'a Layout,
    cube: &'a Cube,
    tries: u64,
}

impl<'a> Model for RunParams<'a> {
    ghost use Rattle.std.specs.Prelude.{◌≤◌};
    ghost use Rattle.stream_check.specs.StreamParams.{max_tries};
    ghost use Rattle.stream_check.specs.Streams.{RunParamsValue};

    ghost Value = { RunParamsValue };

    ghost view = { λ t. record { layout = t.layout.now; cube = t.cube.now; tries = t.tries } };

    ghost invariant = { λ t. t.tries ≤ max_tries };
}

impl<'a> RunParams<'a> {
    /// The parameters of a run; `tries` is at most 1,000,000.
    pub fn new(layout: &'a Layout, cube: &'a Cube, tries: u64) -> RunParams<'a>
        requires { tries ≤ max_tries }
        ensures { result ≡ record { layout = layout.now; cube = cube.now; tries = tries } }
    {
        RunParams {
            layout,
            cube,
            tries,
        }
    }

    /// The layout of the formula and all streams.
    pub fn layout(&self) -> &'a Layout
        ensures { result.now ≡ self.now.layout }
    {
        self.layout
    }

    /// The assumed literals.
    pub fn cube(&self) -> &'a Cube
        ensures { result.now ≡ self.now.cube }
    {
        self.cube
    }

    /// How many times a hint of another stream is fetched again while it is vacant: at most
    /// 1,000,000.
    pub fn tries(&self) -> u64
        ensures tries { result ≡ self.now.tries }
        ensures limit { result ≤ max_tries }
    {
        self.tries
    }
}
