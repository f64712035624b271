//! The steps of a walk at declarations, and where a procedure begins and ends.

ghost use Rattle.std.specs.Prelude.{◌≡◌, [], ◌∷◌, ◌++◌, List, map, OnOk, option_copied};
ghost use Rattle.algol_tree.specs.Accepted.{noted_all};
ghost use Rattle.algol_tree.specs.Blocks.{Block};
ghost use Rattle.algol_tree.specs.Image as image;
ghost use Rattle.algol_tree.specs.Plain.{PDecls};
ghost use Rattle.algol_tree.specs.Sites as sites;
ghost use Rattle.algol_tree.specs.Surroundings as rules;
ghost use Rattle.algol_tree.specs.Surroundings.{Surroundings};
ghost use Rattle.algol_told.specs.Telling.{TellsAll};
ghost use Rattle.algol_sites.specs.declared.place.Place.{Place};
ghost use Rattle.algol_sites.specs.Headings.{forward_site, missing, referring};
ghost use Rattle.algol_sites.specs.Noting.{noted_along, noted_at};
ghost use Rattle.algol_check.specs.Declaring.{EntersProcedure};

use crate::checker::Checker;
use algol_frames::Scopes;
use algol_sites::{bounds, check_forward, check_heading};
use algol_tree::{Heading, Named, Pair};
use std::alloc::AllocError;

impl Checker {
    /// Where labels are declared.
    pub fn keep_labels(&mut self, names: &[Named]) -> Result<(), AllocError>
        ensures labels { OnOk result (self.new.labels.items ≡ self.old.labels.items ++ map (λ n. n.spot) names.now) }
        ensures rest { self.new ≡ record self.old { labels = self.new.labels } }
    {
        'labels: for name in names {
            self.labels.push(name.spot)?;
        }
        Ok(())
    }

    /// The bounds of an array.
    pub fn bounds(&mut self, scopes: &Scopes, pairs: &[Pair])
        ensures faults { (blocks : List Block) (a : Surroundings) → TellsAll scopes.now (sites.sites_in_pairs (image.pairs pairs.now) a) → self.new.faults.first ≡ noted_along blocks self.old.faults.first (sites.sites_in_pairs (image.pairs pairs.now) a) }
        ensures rest { self.new ≡ record self.old { faults = self.new.faults } }
    {
        bounds(scopes, pairs, &mut self.faults);
    }

    /// FORWARD, whose procedure has its body after that heading.
    pub fn forward(&mut self, h: &Heading, body: Option<&Heading>) -> Result<(), AllocError>
        ensures faults { OnOk result ((blocks : List Block) (a : Surroundings) (later : PDecls) → rules.body_of h.now.name.name later ≡ option_copied body.entry → self.new.faults.first ≡ noted_at blocks self.old.faults.first (forward_site h.now later a)) }
        ensures rest { self.new ≡ record self.old { faults = self.new.faults } }
    {
        check_forward(self.alloc, h, body, &mut self.faults)
    }

    /// The heading of a procedure with its body.
    pub fn heading(&mut self, h: &Heading) -> Result<(), AllocError>
        ensures faults { OnOk result (self.new.faults.first ≡ noted_all (noted_all self.old.faults.first (missing h.now.specs h.now.params)) (referring h.now.specs h.now.values)) }
        ensures rest { self.new ≡ record self.old { faults = self.new.faults } }
    {
        check_heading(self.alloc, h, &mut self.faults)
    }

    /// The body of a procedure begins.
    pub fn enter(&mut self, h: &Heading) -> Result<(), AllocError>
        ensures enters { OnOk result (EntersProcedure self.old.place self.new.place h.now) }
        ensures rest { self.new ≡ record self.old { place = self.new.place } }
    {
        self.place.open(h.name.spot)?;
        Ok(())
    }

    /// The body of a procedure ends.
    pub fn leave(&mut self)
        ensures place { (before : Place) → self.old.place.around.items ≡ before.around.items ++ before.block ∷ [] → (self.new.place.block ≡ before.block) × (self.new.place.around.items ≡ before.around.items) }
        ensures rest { self.new ≡ record self.old { place = self.new.place } }
    {
        self.place.close();
    }
}
