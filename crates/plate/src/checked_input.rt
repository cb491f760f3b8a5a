// What is handed over, checked.
ghost use Rattle.std.specs.Prelude.{◌≡◌, ◌+◌, ◌*◌, ◌<◌, length};
ghost use Rattle.rules.specs.HandedOver.{at};
ghost use Rattle.plate_laws.specs.Lists.{All};
ghost use Rattle.plate_laws.specs.FiniteDistances.{OnPlate};
ghost use Rattle.plate_laws.specs.AcceptedInput.{Accepted};
ghost use Rattle.plate.specs.Props.{on_plate_prop, accepted_prop};

use rules::{Input, Point, Vertex, point_at};

// What is handed over, as refusals 1 to 3, 13 and 4 let it pass.
#[derive(Clone, Copy)]
pub struct CheckedInput<'a> {
    pub input: Input<'a>,
    ghost accepted: { Accepted input.points.now input.lengths.now } by { accepted_prop input.points.now input.lengths.now },
    ghost layered: { length input.layers.now ≡ length input.lengths.now },
}

// The points of a plate. Each coordinate is on the plate.
#[derive(Clone, Copy)]
pub struct PlatePoints<'a> {
    pub coordinates: &'a [f64],
    ghost on_plate: { All OnPlate coordinates.now } by { on_plate_prop coordinates.now },
}

impl PlatePoints<'_> {
    // The point of a vertex.
    pub fn point_at(&self, v: Vertex) -> Point
        requires { 2 * v.0 + 1 < length self.now.coordinates.now }
        ensures point { result ≡ at self.now.coordinates.now v.0 }
        ensures on_plate { OnPlate result.x × OnPlate result.y }
    {
        point_at(self.coordinates, v)
    }
}
