// Test files, and what each must be read as.

mod faulty;
mod files;
mod manual;
mod marked;
