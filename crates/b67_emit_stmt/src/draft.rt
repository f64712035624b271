use algol_places::Places;
use algol_tree::Spot;
use b67_emitter::Names;
use b67_segment::{Builder, Format};

/// A label before a statement: where it stands in the text, and where the code of the statement begins.
#[derive(Clone, Copy)]
pub struct Label {
    pub spot: Spot,
    pub place: u16,
}

/// What is emitted: the operators, the places of branches that leave a statement early and are not aimed yet, the formats of lines by
/// number from 0, and the labels of the text so far.
#[derive(Drop)]
pub struct Draft {
    pub out: Builder,
    pub exits: Vec<u16>,
    pub formats: Vec<Format>,
    pub labels: Vec<Label>,
}

/// What is known where a text is emitted: what the program's names mean, where the names of its procedures stand in the order of the
/// text, and the number of the segment.
#[derive(Drop)]
pub struct Known<'a> {
    pub names: &'a Names<'a>,
    pub procedures: &'a Places,
    pub segment: u16,
}

/// How the statements of a block are emitted: the emitter of their expressions, what is known, and the block's level.
#[derive(Drop)]
pub struct StmtEmitter<'a, E> {
    pub exprs: &'a E,
    pub known: &'a Known<'a>,
    pub level: u8,
}
