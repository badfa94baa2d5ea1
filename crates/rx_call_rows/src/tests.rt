mod devices;
mod elements;
mod graphs;
