// The four full volumes of the trials. The head is edition, junctions, roads, points, edges, pieces; the records stand as document 01
// has them.

// The sample network of document 01, of one block.
pub const SAMPLE: &str = "head 1 3 3 4 3 5
roads 1 0 0 1, 0 2 1 2, 1 2 3 1
points 0 60; 0 100, 100 50; 0 150
edges 1 0 0 1 1, 0 2 1 1 1, 1 2 2 3 2
pieces 0 0 -; 0 1 -; 0 0 1, 70806 2 -, 86359 0 1";

// Two ways from 2 to 3 round a hill, one slow in the morning and one in the evening; no road leaves 3. One block.
pub const HILL: &str = "head 1 4 5 10 5 7
roads 2 0 0 1, 0 3 1 3, 2 1 4 1, 1 3 5 4, 2 3 9 1
points 0 300; 21600 200, 28800 1400, 36000 200; 0 500;
    0 400, 61200 400, 64800 1600, 72000 400; 0 1500
edges 2 0 0 1 1, 0 3 1 1 1, 2 1 2 1 1, 1 3 3 1 1, 2 3 4 3 2
pieces 0 0 -; 0 1 -; 0 2 -; 0 3 -; 0 0 1, 23706 2 3, 33295 0 1";

// A ring driven one way round, with two parallel roads from 0 to 1. One block.
pub const RING: &str = "head 1 5 6 11 8 10
roads 0 1 0 2, 0 1 2 2, 1 2 4 1, 2 3 5 2, 3 4 7 3, 4 0 10 1
points 0 700, 43200 500; 28800 400, 36000 900; 0 250;
    82800 3000, 86399 100; 0 60, 40000 30000, 80000 60; 0 10
edges 0 1 0 3 1, 4 0 3 1 1, 1 2 4 1 1, 4 1 5 1 2,
    2 3 6 1 1, 4 2 7 1 3, 4 3 8 1 4, 3 4 9 1 1
pieces 0 1 -, 31047 0 -, 75601 1 -; 0 5 -; 0 2 -; 0 1 0;
    0 3 -; 0 3 2; 0 5 4; 0 4 -";

// A street between 3, 0 and 4, a ferry from 3 to 4 that leaves three times a day, and a dead end; no road touches 1. Two blocks.
pub const FERRY: &str = "head 1 6 7 14 9 13
roads 0 3 0 1, 3 0 1 1, 0 4 2 2, 4 0 4 2, 3 4 6 5, 4 2 11 2, 2 5 13 1
points 0 120; 0 90; 0 240, 30000 100; 30000 240, 60000 100;
    0 3600, 3599 1, 3600 43200, 46799 1, 46800 39600; 100 86400, 86399 101; 0 1
edges 3 0 0 1 1, 0 3 1 1 1, 4 0 2 1 1, 0 4 3 1 1, 4 2 4 1 1,
    2 5 5 1 1, 4 3 6 1 2, 3 4 7 5 2, 4 5 12 1 2
pieces 0 1 -; 0 0 -; 0 3 -; 0 2 -; 0 5 -;
    0 6 -; 0 2 1; 0 0 3, 3287 4 -, 3600 0 3, 46570 4 -, 46800 0 3; 0 4 5";
