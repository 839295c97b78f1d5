// The rows of the noted positions: id, D, R of each.
ghost use Rattle.std.specs.Prelude.{◌≡◌, length, ◌≤◌, ◌<◌};
ghost use Rattle.std.specs.List.{All};
ghost use Rattle.std.proofs.lemmas.List.Edits.{sets};
ghost use Rattle.ground.specs.Rows.{flat};
ghost use Rattle.part73.specs.Standards.{chosen};
ghost use Rattle.spacing.specs.Pair.{sited};
ghost use Rattle.versions.specs.Version.{limit};
ghost use Rattle.stations.specs.Image.{count};
ghost use Rattle.checks.specs.Positions.{rows_at};

use ground::Rows;
use neighbours::neighbour_at;
use survey::Study;

// The rows of the records at positions, by the standard of what is studied, from the buffer's start.
pub fn put_noted(study: &Study<'_>, channel: usize, positions: &[u16], rows: &mut [u32])
    requires few { length positions.now ≤ limit }
    requires within { All (λ i. i < count study.now.table.image.now) positions.now }
    ensures { let s = study.now in rows.new ≡ sets rows.old 0 (flat (rows_at (chosen s.terms.standard) s.table.image.now (sited s.place channel) positions.now)) }
{
    let separations = standards::rows_by(study.terms.standard);
    let mut rows = Rows::new(rows);
    for &i in positions {
        let n = neighbour_at(study, i as usize, &separations, channel);
        rows.put([n.id, n.distance, n.separation]);
    }
}
