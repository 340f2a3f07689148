// Equal cells are a line: a frame waits in a cell of its own, and none is moved from cell to cell.
use crate::store::CellStore;
use lines::queue::Queue;

pub type Cells = Queue<CellStore>;
