//! Declarations, without the statements in them.

ghost use Rattle.std.specs.Prelude.{◌≡◌, ℕ, ◌+◌, ◌&&◌, Some, None, IfOk, OnOk, List, [], ◌∷◌, ◌++◌, length, map, is_some, not, reverse};
ghost use Rattle.algol_tree.specs.declared.refusal.Code.TheVariants as codes;
ghost use Rattle.algol_tree.specs.declared.tree.Heading.{Heading};
ghost use Rattle.algol_tree.specs.Plain as tree;
ghost use Rattle.algol_tree.specs.Plain.{PDecls};
ghost use Rattle.algol_tree.specs.Classes as classes;
ghost use Rattle.algol_tree.specs.Sorts as plain;
ghost use Rattle.algol_tree.specs.Sorts.{formals_of};
ghost use Rattle.algol_tree.specs.Image as image;
ghost use Rattle.algol_tree.specs.Image.{decl, decls, stmt};
ghost use Rattle.algol_tree.specs.Surroundings.{Surroundings, body_of, knowing};
ghost use Rattle.algol_tree.specs.Cells as cells;
ghost use Rattle.algol_tree.specs.Cells.{cells_for};
ghost use Rattle.algol_tree.specs.Couples.{known_in_heading, known_names};
ghost use Rattle.algol_tree.specs.Names.{if_so};
ghost use Rattle.algol_tree.specs.Accepted.{broken, noted_all};
ghost use Rattle.algol_known.specs.declared.known.Seen.TheVariants as seens;
ghost use Rattle.algol_tree.specs.Counts.{heading_tokens, stmt_tokens};
ghost use Rattle.algol_scope.specs.Declaring.{result_in, AreAhead, HasBodies, IsAhead, IsOf, Makes, Starts, cell_of_procedure, cells_here, decl_parts, declared_so, faults_of_decl, known_so, no_cells, no_faults, no_uses, nothing_so, procedure_so, twice_among};
ghost use Rattle.algol_known.specs.Widening.{Admits, SortStandsFor, Widens, declaring, parameters_so};
ghost use Rattle.algol_known.specs.Looking.{is_announced, looked_up, modes_in, open_blocks, procedure_class};
ghost use Rattle.algol_known.specs.Naming.{has_name, sort_named};
ghost use Rattle.std.specs.Map.{update};
ghost use Rattle.std.specs.Str.{bytes_eq};
ghost use Rattle.algol_scope.specs.Noting.{FindingsAdd, Knows, content_of, long_segment};
ghost use Rattle.algol_known.specs.Seeing.{Extends, IsClass, Sees, mode_of};
ghost use Rattle.algol_scope.specs.Stating.{WalkEnters, no_blocks};

use crate::findings::Findings;
use crate::heading::{is_named, note_repeated, result_name, twice_in_heading, unknown_in_heading};
use crate::resolver::Resolver;
use algol_frames::{Cell, Content, note_if};
use algol_known::{Around, Class, modes, no_names};
use algol_rules::{names_of, procedure_tokens};
use algol_sorts::{Key, Sort, found};
use algol_tree::{Code, Decl, Heading, Kind, List, MOST_SEGMENT_TOKENS, Named, Pair, Spot, Stmt};
use std::alloc::{AllocError, Global};
use std::collections::BTreeMap;

/// What is found before the declarations of a body are gone through: of each, the procedure that it declares, where the
/// heading of that with its body stands, the type of its result, and whether it stands there or after it.
#[derive(Clone, Copy)]
pub struct Ahead {
    pub procedure: usize,
    pub spot: Spot,
    pub kind: Option<Kind>,
    pub has_body: bool,
}

/// Procedures with a body, by their names.
type Bodies<'p> = BTreeMap<Key<'p>, Ahead>;

/// One more procedure with its body.
fn remember<'p>(bodies: &mut Bodies<'p>, name: &'p [u8], ahead: Ahead) -> Result<(), AllocError>
    ensures { OnOk result ((q : List ℕ) → sort_named bodies.new q ≡ update bytes_eq (sort_named bodies.old) name.now (Some ahead) q) }
{
    bodies.insert(Key::of(name), ahead)?;
    Ok(())
}

/// The procedure with its body of this name.
fn found_body<'p>(bodies: &Bodies<'p>, name: &'p [u8]) -> Option<Ahead>
    ensures { result ≡ sort_named bodies.now name.now }
{
    found(bodies, name).copied()
}

/// The same from the last to the first.
fn reversed(mut found: Vec<Ahead>) -> Vec<Ahead>
    ensures { result.items ≡ reverse found.items }
{
    found.reverse();
    found
}

/// No procedures.
fn no_bodies<'p>(alloc: Global) -> Bodies<'p>
    ensures { (q : List ℕ) → sort_named result q ≡ None }
{
    BTreeMap::new(alloc)
}

/// What stands ahead of a declaration of no procedure.
fn no_procedure() -> Ahead {
    Ahead {
        procedure: 0,
        spot: Spot { line: 0, column: 0 },
        kind: None,
        has_body: false,
    }
}

impl Findings {
    /// Cells of the innermost block at these names.
    fn cells_at<'p>(
        &mut self,
        ns: &'p [Named],
        content: Content,
        around: &Around<'p>,
    ) -> Result<(), AllocError>
        ensures { OnOk result ((held : cells.Content) → content_of held ≡ content → FindingsAdd self.old [] (cells_for around.now.innermost.block held ns.now) [] self.new) }
    {
        'names: for n in ns {
            self.cells.push(Cell {
                block: around.block(),
                spot: n.spot,
                content,
            })?;
        }
        Ok(())
    }

    /// Names that stand there and are known.
    fn known_all<'p>(&mut self, ns: &'p [Named], around: &Around<'p>) -> Result<(), AllocError>
        ensures { OnOk result (Knows around.now self.old self.new (λ a. known_names a ns.now)) }
    {
        'names: for n in ns {
            self.known(n, around)?;
        }
        Ok(())
    }

    /// The parameters of a procedure in its heading, where what is around is its own block.
    fn known_in_heading<'p>(
        &mut self,
        h: &'p Heading,
        around: &Around<'p>,
    ) -> Result<(), AllocError>
        ensures { OnOk result (Knows around.now self.old self.new (known_in_heading h.now)) }
    {
        self.known_all(h.params.items().as_slice(), around)?;
        self.known_all(h.values.items().as_slice(), around)?;
        'specs: for spec in h.specs.items() {
            self.known_all(names_of(spec).as_slice(), around)?;
        }
        Ok(())
    }

    /// The cell of the result of a typed procedure, whose block is the innermost.
    fn result_cell<'p>(&mut self, h: &'p Heading, around: &Around<'p>) -> Result<(), AllocError>
        ensures { OnOk result (FindingsAdd self.old [] (result_in around.now.innermost.block h.now) [] self.new) }
    {
        if h.kind.is_some() {
            self.cells.push(Cell {
                block: around.block(),
                spot: h.name.spot,
                content: Content::Result,
            })?;
        }
        Ok(())
    }

    /// The result and the parameters of a procedure, whose block is the innermost.
    fn enter_heading<'p>(&mut self, h: &'p Heading, around: &Around<'p>) -> Result<(), AllocError>
        ensures { OnOk result ((a : Surroundings) → Sees around.now seens.All a → FindingsAdd self.old [] (result_in around.now.innermost.block h.now ++ cells_for around.now.innermost.block cells.parameter h.now.params) (known_in_heading h.now a) self.new) }
    {
        self.known_in_heading(h, around)?;
        self.result_cell(h, around)?;
        self.cells_at(h.params.items().as_slice(), Content::Parameter, around)
    }
}

impl<'p> Resolver<'p> {
    // ---- what stands ahead

    fn add_procedure(&mut self, heading: &'p Heading) -> Result<usize, AllocError>
        ensures more { OnOk result (Extends self.old.around.procedures.items self.new.around.procedures.items) }
        ensures class { IfOk result (λ number. IsClass self.new.around.procedures.items (procedure_class number) (classes.procedure heading.now)) }
        ensures innermost { self.new.around.innermost ≡ self.old.around.innermost }
        ensures outer { self.new.around.outer ≡ self.old.around.outer }
        ensures findings { self.new.findings ≡ self.old.findings }
        ensures blocks { self.new.blocks ≡ self.old.blocks }
    {
        let modes = modes(self.alloc, heading)?;
        self.around.add(modes)
    }

    /// One more procedure, of which this heading counts.
    fn heading_ahead(&mut self, h: &'p Heading, has_body: bool) -> Result<Ahead, AllocError>
        ensures more { OnOk result (Extends self.old.around.procedures.items self.new.around.procedures.items) }
        ensures ahead { IfOk result (λ x. IsOf self.new.around.procedures.items x h.now × (x.has_body ≡ has_body)) }
        ensures innermost { self.new.around.innermost ≡ self.old.around.innermost }
        ensures outer { self.new.around.outer ≡ self.old.around.outer }
        ensures findings { self.new.findings ≡ self.old.findings }
        ensures blocks { self.new.blocks ≡ self.old.blocks }
    {
        let procedure = self.add_procedure(h)?;
        Ok(Ahead {
            procedure,
            spot: h.name.spot,
            kind: h.kind,
            has_body,
        })
    }

    /// Of each declaration the procedure that it declares.
    pub fn look_ahead(&mut self, ds: &'p [Decl]) -> Result<Vec<Ahead>, AllocError>
        ensures more { OnOk result (Extends self.old.around.procedures.items self.new.around.procedures.items) }
        ensures ahead { IfOk result (λ found. AreAhead self.new.around.procedures.items (decls ds.now) found.items) }
        ensures count { IfOk result (λ found. length found.items ≡ length ds.now) }
        ensures innermost { self.new.around.innermost ≡ self.old.around.innermost }
        ensures outer { self.new.around.outer ≡ self.old.around.outer }
        ensures findings { self.new.findings ≡ self.old.findings }
        ensures blocks { self.new.blocks ≡ self.old.blocks }
    {
        let mut bodies = no_bodies(self.alloc);
        let mut found = Vec::new(self.alloc);
        'declarations: for at in (0..ds.len()).rev() {
            let ahead = self.ahead_of(&ds[at], &mut bodies)?;
            found.push(ahead)?;
        }
        Ok(reversed(found))
    }

    /// The procedure that this declaration declares, of whose followers these have a body.
    fn ahead_of(&mut self, d: &'p Decl, bodies: &mut Bodies<'p>) -> Result<Ahead, AllocError>
        ensures more { OnOk result (Extends self.old.around.procedures.items self.new.around.procedures.items) }
        ensures ahead { IfOk result (λ x. (later : PDecls) → HasBodies self.old.around.procedures.items bodies.old later → IsAhead self.new.around.procedures.items (decl d.now) later x) }
        ensures bodies { OnOk result ((later : PDecls) → HasBodies self.old.around.procedures.items bodies.old later → HasBodies self.new.around.procedures.items bodies.new (tree.decls (decl d.now) later)) }
        ensures innermost { self.new.around.innermost ≡ self.old.around.innermost }
        ensures outer { self.new.around.outer ≡ self.old.around.outer }
        ensures findings { self.new.findings ≡ self.old.findings }
        ensures blocks { self.new.blocks ≡ self.old.blocks }
    {
        match d {
            Decl::Procedure(h, _) => {
                let ahead = self.heading_ahead(h, true)?;
                remember(bodies, h.name.name.bytes(), ahead)?;
                Ok(ahead)
            }
            Decl::Forward(h) => self.announced(h, bodies),
            Decl::Simple(_, _) => Ok(no_procedure()),
            Decl::Files(_) => Ok(no_procedure()),
            Decl::Events(_) => Ok(no_procedure()),
            Decl::Tasks(_) => Ok(no_procedure()),
            Decl::Labels(_) => Ok(no_procedure()),
            Decl::Arrays(_, _, _) => Ok(no_procedure()),
        }
    }

    fn announced(&mut self, h: &'p Heading, bodies: &Bodies<'p>) -> Result<Ahead, AllocError>
        ensures more { OnOk result (Extends self.old.around.procedures.items self.new.around.procedures.items) }
        ensures ahead { IfOk result (λ x. (later : PDecls) → HasBodies self.old.around.procedures.items bodies.now later → IsAhead self.new.around.procedures.items (tree.forward h.now) later x) }
        ensures innermost { self.new.around.innermost ≡ self.old.around.innermost }
        ensures outer { self.new.around.outer ≡ self.old.around.outer }
        ensures findings { self.new.findings ≡ self.old.findings }
        ensures blocks { self.new.blocks ≡ self.old.blocks }
    {
        match found_body(bodies, h.name.name.bytes()) {
            Some(ahead) => Ok(ahead),
            None => self.heading_ahead(h, false),
        }
    }

    // ---- declarations

    /// Notes which of the names the innermost block has before.
    fn note_here(&mut self, ns: &'p [Named]) -> Result<(), AllocError>
        ensures { OnOk result (Makes self.old self.new (twice_among ns.now) no_cells no_uses nothing_so) }
    {
        let mut before = no_names(self.alloc);
        note_repeated(
            &self.around.innermost,
            &mut before,
            ns,
            &mut self.findings.faults,
        )
    }

    /// The innermost block declares the names, without cells.
    fn names(&mut self, ns: &'p List<Named>, sort: Sort) -> Result<(), AllocError>
        ensures { OnOk result ((s : plain.Sort) (c : classes.Class) → SortStandsFor sort s c → Makes self.old self.new (twice_among ns.now) no_cells (known_so (declared_so s c ns.now) ns.now) (declared_so s c ns.now)) }
    {
        let ns = ns.items().as_slice();
        self.note_here(ns)?;
        self.around.declare_all(ns, sort)?;
        self.findings.known_all(ns, &self.around)
    }

    /// The innermost block declares the names, each with a cell.
    fn cells(&mut self, ns: &'p List<Named>, sort: Sort, content: Content) -> Result<(), AllocError>
        ensures { OnOk result ((s : plain.Sort) (c : classes.Class) (held : cells.Content) → SortStandsFor sort s c → content_of held ≡ content → Makes self.old self.new (twice_among ns.now) (cells_here held ns.now) (known_so (declared_so s c ns.now) ns.now) (declared_so s c ns.now)) }
    {
        self.names(ns, sort)?;
        self.findings
            .cells_at(ns.items().as_slice(), content, &self.around)
    }

    /// Simple variables.
    pub fn simple(&mut self, kind: Kind, ns: &'p List<Named>) -> Result<(), AllocError>
        ensures { OnOk result ((later : PDecls) → WalkEnters self.old self.new (decl_parts (tree.simple kind ns.now) later) no_blocks (λ blocks. knowing blocks (tree.simple kind ns.now) later)) }
    {
        self.cells(ns, Sort::Variable(kind), Content::Variable)
    }

    /// Files.
    pub fn files(&mut self, ns: &'p List<Named>) -> Result<(), AllocError>
        ensures { OnOk result ((later : PDecls) → WalkEnters self.old self.new (decl_parts (tree.files ns.now) later) no_blocks (λ blocks. knowing blocks (tree.files ns.now) later)) }
    {
        self.names(ns, Sort::File)
    }

    /// Events.
    pub fn events(&mut self, ns: &'p List<Named>) -> Result<(), AllocError>
        ensures { OnOk result ((later : PDecls) → WalkEnters self.old self.new (decl_parts (tree.events ns.now) later) no_blocks (λ blocks. knowing blocks (tree.events ns.now) later)) }
    {
        self.cells(ns, Sort::Event, Content::Made)
    }

    /// Tasks.
    pub fn tasks(&mut self, ns: &'p List<Named>) -> Result<(), AllocError>
        ensures { OnOk result ((later : PDecls) → WalkEnters self.old self.new (decl_parts (tree.tasks ns.now) later) no_blocks (λ blocks. knowing blocks (tree.tasks ns.now) later)) }
    {
        self.cells(ns, Sort::Task, Content::Made)
    }

    /// Labels.
    pub fn labels(&mut self, ns: &'p List<Named>) -> Result<(), AllocError>
        ensures { OnOk result ((later : PDecls) → WalkEnters self.old self.new (decl_parts (tree.labels ns.now) later) no_blocks (λ blocks. knowing blocks (tree.labels ns.now) later)) }
    {
        self.names(ns, Sort::Label)
    }

    /// Arrays, and their bounds.
    pub fn arrays(
        &mut self,
        kind: Kind,
        ns: &'p List<Named>,
        pairs: &'p List<Pair>,
    ) -> Result<(), AllocError>
        ensures { OnOk result ((later : PDecls) → WalkEnters self.old self.new (decl_parts (tree.arrays kind ns.now (image.pairs pairs.now)) later) no_blocks (λ blocks. knowing blocks (tree.arrays kind ns.now (image.pairs pairs.now)) later)) }
    {
        let subscripts = pairs.items().as_slice().len();
        self.cells(ns, Sort::Array(kind, subscripts), Content::Made)?;
        self.findings.bounds(pairs, &self.around)
    }

    /// The innermost block has this procedure, whose name stands there.
    fn declare_heading(&mut self, n: &'p Named, ahead: Ahead) -> Result<(), AllocError>
        ensures { OnOk result ((h : Heading) → IsOf self.old.around.procedures.items ahead h → h.name.name ≡ n.now.name → Makes self.old self.new no_faults no_cells (known_so (procedure_so h) (n.now ∷ [])) (procedure_so h)) }
    {
        let class = Class {
            sort: Sort::Procedure(ahead.kind),
            procedure: ahead.procedure,
        };
        let entry = self.around.entry(ahead.spot, class);
        self.around.declare(n.name.bytes(), entry)?;
        self.findings.known(n, &self.around)
    }

    /// The faults of a FORWARD.
    fn check_forward(&mut self, h: &'p Heading, has_body: bool) -> Result<(), AllocError>
        ensures { OnOk result ((later : PDecls) → has_body ≡ is_some (body_of h.now.name.name later) → Makes self.old self.new (faults_of_decl (tree.forward h.now) later) no_cells no_uses nothing_so) }
    {
        note_if(
            !has_body,
            h.name.spot,
            Code::UnknownName,
            &mut self.findings.faults,
        );
        unknown_in_heading(self.alloc, h, &mut self.findings.faults)?;
        self.note_name(&h.name);
        twice_in_heading(self.alloc, h, &mut self.findings.faults)
    }

    pub fn forward(&mut self, h: &'p Heading, ahead: Ahead) -> Result<(), AllocError>
        ensures { OnOk result ((later : PDecls) → IsAhead self.old.around.procedures.items (tree.forward h.now) later ahead → WalkEnters self.old self.new (decl_parts (tree.forward h.now) later) no_blocks (λ blocks. knowing blocks (tree.forward h.now) later)) }
    {
        self.check_forward(h, ahead.has_body)?;
        self.declare_heading(&h.name, ahead)
    }

    /// Notes whether the innermost block has the name before.
    fn note_name(&mut self, n: &'p Named)
        ensures faults { self.new.findings.faults.first ≡ noted_all self.old.findings.faults.first (broken codes.DeclaredTwice (if_so (has_name self.old.around.innermost.typed self.old.around.innermost.declared self.old.around.innermost.parameters n.now.name) n.now.spot)) }
        ensures cells { self.new.findings.cells ≡ self.old.findings.cells }
        ensures uses { self.new.findings.uses ≡ self.old.findings.uses }
        ensures around { self.new.around ≡ self.old.around }
        ensures blocks { self.new.blocks ≡ self.old.blocks }
    {
        note_if(
            self.around.innermost.has(n.name.bytes()),
            n.spot,
            Code::DeclaredTwice,
            &mut self.findings.faults,
        );
    }

    /// Whether the innermost block has the name of this heading before, and no FORWARD of it.
    fn is_again(&self, h: &'p Heading) -> bool
        ensures { result ≡ (not (is_announced (looked_up (open_blocks self.now.around) seens.All h.now.name.name) self.now.around.innermost.block h.now.name.spot) && has_name self.now.around.innermost.typed self.now.around.innermost.declared self.now.around.innermost.parameters h.now.name.name) }
    {
        !self.around.is_announced(h) && self.around.innermost.has(h.name.name.bytes())
    }

    /// Notes whether a procedure's text is too long.
    fn note_long(&mut self, h: &Heading, s: &Stmt)
        ensures faults { self.new.findings.faults.first ≡ noted_all self.old.findings.faults.first (broken codes.SegmentTooLong (long_segment (record { spot = h.now.name.spot; tokens = heading_tokens h.now + stmt_tokens (stmt s.now) }))) }
        ensures cells { self.new.findings.cells ≡ self.old.findings.cells }
        ensures uses { self.new.findings.uses ≡ self.old.findings.uses }
        ensures around { self.new.around ≡ self.old.around }
        ensures blocks { self.new.blocks ≡ self.old.blocks }
    {
        note_if(
            procedure_tokens(h, s) > MOST_SEGMENT_TOKENS,
            h.name.spot,
            Code::SegmentTooLong,
            &mut self.findings.faults,
        );
    }

    /// The faults of a heading with its body.
    fn check_heading(&mut self, h: &'p Heading, s: &Stmt) -> Result<(), AllocError>
        ensures { OnOk result ((later : PDecls) → Makes self.old self.new (faults_of_decl (tree.procedure h.now (stmt s.now)) later) no_cells no_uses nothing_so) }
    {
        unknown_in_heading(self.alloc, h, &mut self.findings.faults)?;
        note_if(
            self.is_again(h),
            h.name.spot,
            Code::DeclaredTwice,
            &mut self.findings.faults,
        );
        twice_in_heading(self.alloc, h, &mut self.findings.faults)?;
        self.note_long(h, s);
        Ok(())
    }

    /// The innermost block declares a procedure with its body.
    pub fn declare_procedure(
        &mut self,
        h: &'p Heading,
        s: &Stmt,
        ahead: Ahead,
    ) -> Result<(), AllocError>
        ensures { OnOk result ((later : PDecls) → IsOf self.old.around.procedures.items ahead h.now → Makes self.old self.new (faults_of_decl (tree.procedure h.now (stmt s.now)) later) (cell_of_procedure h.now) (known_so (procedure_so h.now) (h.now.name ∷ [])) (procedure_so h.now)) }
    {
        self.check_heading(h, s)?;
        self.declare_heading(&h.name, ahead)?;
        self.findings.cells.push(Cell {
            block: self.around.block(),
            spot: h.name.spot,
            content: Content::Procedure,
        })?;
        Ok(())
    }

    /// The block of a procedure begins, with its result and its parameters.
    pub fn begin_procedure(&mut self, h: &'p Heading, ahead: Ahead) -> Result<(), AllocError>
        ensures { OnOk result (modes_in self.old.around.procedures.items (procedure_class ahead.procedure) ≡ map mode_of (formals_of h.now) → Starts self.old self.new h.now) }
    {
        self.open(h.name.spot, result_name(h), is_named(h))?;
        self.around.declare_parameters(h, ahead.procedure)?;
        self.findings.enter_heading(h, &self.around)
    }
}
