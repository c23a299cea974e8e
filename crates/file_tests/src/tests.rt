mod desks;
mod faults;
mod feeding;
mod fields;
mod recoding;
mod records;
mod words;
