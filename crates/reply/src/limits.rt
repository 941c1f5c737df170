// Document 01's limits and ranges, ends included.

// The most positions of a scaffold.
pub const POSITIONS: usize = 128;

// The most strands of a design, strand 0 included.
pub const STRANDS: usize = 64;

// A strand has three glues: west, bottom, east.
pub const SIDES: usize = 3;

// The glues, 0 included: the rows and the columns of a glue table.
pub const GLUES: usize = 64;

// The highest glue.
pub const LAST_GLUE: u8 = 63;

// The cells of a glue table.
pub const CELLS: usize = 4096;

// The largest dG of a cell in size, in kcal/mol.
pub const DG: f64 = 1024.0;

// The largest dS of a cell in size, in kcal/mol/K.
pub const DS: f64 = 8.0;

// The largest excess temperature in size, in K.
pub const EXCESS: f64 = 1024.0;

// The largest potential in size.
pub const POTENTIAL: f64 = 1024.0;

// The lowest RT, in kcal/mol.
pub const LEAST_RT: f64 = 0.125;

// The highest RT, in kcal/mol.
pub const MOST_RT: f64 = 8.0;
