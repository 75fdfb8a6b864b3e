mod boxes;
mod rows;
