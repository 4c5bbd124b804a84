// What a script has at hand between its lines, alone in its file so that the definitions can name it.
use custody::station::Station;
use keying::draft::Draft;
use ring::counting::Counting;
use ring::turning::Turning;

// The engines of a script: products are made by turns, and counted.
pub type Engine = Counting<Turning>;

// The degree is that of the first engine; a row has it that is written without a length.
#[derive(Drop)]
pub struct Session {
    pub(crate) degree: usize,
    pub(crate) draft: Option<Draft<Engine, Engine>>,
    pub(crate) station: Option<Station<Engine, Engine>>,
}
